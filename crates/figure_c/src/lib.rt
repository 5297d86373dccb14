// The figure reader for C. The library that it stands on is for Rattle, and a crate is one or the other.
#![tactic(auto)]

ghost use Rattle.std.specs.Prelude.{◌≡◌};
ghost use Rattle.figure.specs.Figure.{figure_of, or_minus_one};

use figure::read_figure;

// For C: the figure's value, or -1 where the bytes are no figure. The C interface needs a number in place of a `Result`.
#[unsafe(no_mangle)]
pub extern "C" fn margin_figure(bytes: &[u8]) -> i64
    ensures { result ≡ or_minus_one (figure_of bytes.now) }
{
    match read_figure(bytes) {
        Ok(value) => value as i64,
        Err(_) => -1,
    }
}

#[cfg(test)]
mod tests {
    use super::*;

    #[test]
    fn no_figure_is_minus_one_for_c(rt: HostRuntime) {
        assert_eq!(rt; margin_figure(b"999999999999999"), 999999999999999);
        assert_eq!(rt; margin_figure(b"1000000000000000"), -1);
        assert_eq!(rt; margin_figure(b""), -1);
    }
}
