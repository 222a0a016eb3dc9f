// What a signal may be called.
ghost use Rattle.std.specs.Prelude.{◌≡◌};
ghost use Rattle.std.specs.List.{list_all};
ghost use Rattle.row_reader.specs.Signal.{is_signal, is_signal_byte};

fn is_signal_byte(byte: u8) -> bool
    ensures { result ≡ is_signal_byte byte }
{
    byte >= 0x21 && byte <= 0x7E && byte != b',' && byte != b'"'
}

fn are_signal_bytes(text: &[u8]) -> bool
    ensures { result ≡ list_all is_signal_byte text.now }
{
    text.iter().all(|byte| is_signal_byte(*byte))
}

/// Whether a text can be the identifier of a signal: it has 1 to 32 bytes from 0x21 to 0x7E without
/// comma and double quote.
#[tactic(auto, using(std::proofs::lemmas::Bool::Decides::nat_tests))]
pub fn is_signal(text: &str) -> bool
    ensures { result ≡ is_signal text.now }
{
    text.len() >= 1 && text.len() <= 32 && are_signal_bytes(text.as_bytes())
}
