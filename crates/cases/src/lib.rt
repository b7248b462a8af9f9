// Examples of each layer, as tests: small numbers worked by hand.
#![tactic(auto)]

#[cfg(test)]
mod pieces;
#[cfg(test)]
mod receiving;
#[cfg(test)]
mod senders;
#[cfg(test)]
mod sheets;
#[cfg(test)]
mod symbol_line;
#[cfg(test)]
mod texts;
