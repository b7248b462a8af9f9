// What begins with a header and goes on by its kind.
ghost use Rattle.std.specs.Prelude.{◌≡◌, ℕ, List, ◌++◌, OnOk};
ghost use Rattle.lines.specs.declared.header.Header.{Header};
ghost use Rattle.stream.specs.Lines.{lines_of};
ghost use Rattle.text.specs.Reading.{header_read};
ghost use Rattle.opening.specs.Headed.{after_first};

use lines::Header;
use runs::Standing;
use std::alloc::{AllocError, Global};

pub trait Program {
    // What is printed of the header.
    ghost echo: { Header → List ℕ };

    // What the lines after the header bring.
    ghost body: { Header → List (List ℕ) → List ℕ };

    // Where the first line leads the reader of a run.
    fn read_first(line: &[u8]) -> Standing
        ensures { result ≡ after_first (header_read line.now) };

    fn print_header(header: Header, out: &mut Vec<u8>) -> Result<(), AllocError>
        ensures { OnOk result (out.new.items ≡ out.old.items ++ echo header) };

    fn print_body(
        heap: Global,
        header: Header,
        text: &[u8],
        out: &mut Vec<u8>,
    ) -> Result<(), AllocError>
        ensures { OnOk result (out.new.items ≡ out.old.items ++ body header (lines_of text.now)) };
}
