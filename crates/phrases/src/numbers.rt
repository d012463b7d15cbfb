//! Numbers in thousandths.
ghost use Rattle.std.specs.Prelude.{◌≡◌, Some};
ghost use Rattle.phrases.specs.Numbers.{fraction, sign, thousandths};

use std::fmt;

/// The decimals of a number, without trailing zeros.
#[derive(Clone, Copy)]
struct Fraction(u64);

impl fmt::Display for Fraction {
    ghost output = { λ s. Some (fraction s.0) };

    fn fmt<W: fmt::Write>(&self, f: &mut fmt::Formatter<W>) -> fmt::Result {
        let number = self.0;
        let tenths = number / 100 % 10;
        let hundredths = number / 10 % 10;
        let thousandths = number % 10;
        if number % 1000 == 0 {
            Ok(())
        } else if number % 100 == 0 {
            write!(f, ".{tenths}")
        } else if number % 10 == 0 {
            write!(f, ".{tenths}{hundredths}")
        } else {
            write!(f, ".{tenths}{hundredths}{thousandths}")
        }
    }
}

/// A minus sign if the number is negative.
fn sign(number: i64) -> &'static str
    ensures { result.now ≡ sign number }
{
    if number < 0 { "-" } else { "" }
}

/// A number in thousandths, printed for example as `12.5`.
#[derive(Clone, Copy)]
pub struct Thousandths(pub i64);

impl fmt::Display for Thousandths {
    ghost output = { λ s. Some (thousandths s.0) };

    fn fmt<W: fmt::Write>(&self, f: &mut fmt::Formatter<W>) -> fmt::Result {
        let sign = sign(self.0);
        let size = self.0.unsigned_abs();
        let whole = size / 1000;
        let fraction = Fraction(size);
        write!(f, "{sign}{whole}{fraction}")
    }
}
