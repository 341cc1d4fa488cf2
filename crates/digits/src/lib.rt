// Texts in fixed memory, and numbers in decimal notation.
#![tactic(auto)]

ghost use Rattle.std.specs.Prelude.{◌≡◌};
ghost use Rattle.digits.specs.Decimal.{decimal_of};

mod texts;

pub use texts::Text;

// A number as Rust prints it: no leading zeros, and "0" for 0.
pub fn decimal(n: u32) -> Text<10>
    ensures { result ≡ decimal_of n }
{
    let mut digits = Text::new();
    digits.push_number(n);
    digits
}
