// A number in decimal, as text of ASCII (document 02, Item 8).
//
// The contract cites specs/Decimal. Nothing is refused: twenty digits hold every number of 64 bits.
#![tactic(auto)]

ghost use Rattle.std.specs.Prelude.{◌≡◌, ◌+◌, length, drop};
ghost use Rattle.decimal.specs.Decimal as decimals;

// The digits of a number: those of the text from a start on.
#[derive(Clone, Copy)]
pub struct Digits {
    pub text: [u8; 20],
    pub start: usize,
}

// A number in decimal.
pub fn decimal(n: usize) -> Digits
    ensures text_value { drop result.start result.text ≡ decimals.decimal n }
    ensures n_value { result.start + length (decimals.decimal n) ≡ 20 }
{
    let mut text = [0u8; 20];
    let mut rest = n;
    for at in (0..20).rev() {
        text[at] = b'0' + (rest % 10) as u8;
        if rest < 10 {
            return Digits { text, start: at };
        }
        rest /= 10;
    }
    Digits { text, start: 0 }
}
