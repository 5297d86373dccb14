// A figure from bytes, whole or not at all: 1 to 15 digits, no leading zero but in 0 itself, nothing after.
#![tactic(auto)]

ghost use Rattle.std.specs.Prelude.{◌≡◌, ◌^◌, ◌<◌, ◌≤◌, length, IfOk};
ghost use Rattle.figure.specs.Figure.{digit_of, numbered, figure_of, Exact};

// Why bytes are no figure.
#[derive(Clone, Copy, Debug, PartialEq, Drop)]
pub enum FigureFault {
    Empty,
    TooLong,
    LeadingZero,
    NotDigit,
}

// The digit that a byte stands for. No method of bytes: the project reads a byte as a character and matches it against literals.
fn digit(byte: u8) -> Result<u8, FigureFault>
    ensures value { result ≡ digit_of byte }
    ensures bound { IfOk result (λ d. d < 10) }
{
    match byte as char {
        '0'..='9' => Ok(byte - b'0'),
        _ => Err(FigureFault::NotDigit),
    }
}

// The number that at most 15 digits write.
#[tactic(auto, using(crate::proofs::Digits::numbered_more, crate::proofs::Digits::power_within))]
fn number(bytes: &[u8]) -> Result<u64, FigureFault>
    requires { length bytes.now ≤ 15 }
    ensures value { result ≡ numbered 0 bytes.now }
    ensures bound { IfOk result (λ v. v < 10 ^ 15) }
{
    let mut value: u64 = 0;
    // tried `try_fold`, which does not prove: how far the value may grow goes by the place, which its closure does not know
    for &byte in bytes {
        value = value * 10 + digit(byte)? as u64;
    }
    Ok(value)
}

// The figure that the bytes write, or why they write none.
#[tactic(auto, using(crate::proofs::Exactly::digits_are_written, crate::proofs::Exactly::decimal_reads))]
pub fn read_figure(bytes: &[u8]) -> Result<u64, FigureFault>
    ensures value { result ≡ figure_of bytes.now }
    ensures exact { Exact bytes.now result }
    ensures bound { IfOk result (λ v. v < 10 ^ 15) }
{
    match bytes {
        [] => Err(FigureFault::Empty),
        _ if bytes.len() > 15 => Err(FigureFault::TooLong),
        [b'0', _, ..] => Err(FigureFault::LeadingZero),
        _ => number(bytes),
    }
}

#[cfg(test)]
mod tests {
    use super::*;

    #[test]
    fn a_figure_is_read_whole_or_not_at_all(rt: HostRuntime) {
        assert_eq!(rt; read_figure(b"83000"), Ok(83000));
        assert_eq!(rt; read_figure(b"83O00"), Err(FigureFault::NotDigit));
        assert_eq!(rt; read_figure(b"07"), Err(FigureFault::LeadingZero));
    }
}
