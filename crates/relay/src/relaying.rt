// The theorem over both programs.
ghost use Rattle.relay.specs.Relaying.{Relays};

// Its contract is the theorem.
pub fn relays()
    ensures { Relays }
{}
