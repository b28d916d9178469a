// Which bits of a map stand in another: one constant table of 256 answers, and maps of any number of four-bit digits by it.
#![tactic(auto)]

ghost use Rattle.std.specs.Prelude.{◌≡◌, ◌*◌, ◌<◌};
ghost use Rattle.containment.specs.Bits.{bits_among};
ghost use Rattle.containment.specs.Answers.{Answers};

// "one for each pair of four-bit maps, entry 16 × a + b being 1 exactly if all bits of a stand in b" (document 02, Q-8). Beside each entry
// its a and b, in binary.
const ANSWERS: [u8; 256] = [
    1, // 0000 in 0000
    1, // 0000 in 0001
    1, // 0000 in 0010
    1, // 0000 in 0011
    1, // 0000 in 0100
    1, // 0000 in 0101
    1, // 0000 in 0110
    1, // 0000 in 0111
    1, // 0000 in 1000
    1, // 0000 in 1001
    1, // 0000 in 1010
    1, // 0000 in 1011
    1, // 0000 in 1100
    1, // 0000 in 1101
    1, // 0000 in 1110
    1, // 0000 in 1111
    0, // 0001 in 0000
    1, // 0001 in 0001
    0, // 0001 in 0010
    1, // 0001 in 0011
    0, // 0001 in 0100
    1, // 0001 in 0101
    0, // 0001 in 0110
    1, // 0001 in 0111
    0, // 0001 in 1000
    1, // 0001 in 1001
    0, // 0001 in 1010
    1, // 0001 in 1011
    0, // 0001 in 1100
    1, // 0001 in 1101
    0, // 0001 in 1110
    1, // 0001 in 1111
    0, // 0010 in 0000
    0, // 0010 in 0001
    1, // 0010 in 0010
    1, // 0010 in 0011
    0, // 0010 in 0100
    0, // 0010 in 0101
    1, // 0010 in 0110
    1, // 0010 in 0111
    0, // 0010 in 1000
    0, // 0010 in 1001
    1, // 0010 in 1010
    1, // 0010 in 1011
    0, // 0010 in 1100
    0, // 0010 in 1101
    1, // 0010 in 1110
    1, // 0010 in 1111
    0, // 0011 in 0000
    0, // 0011 in 0001
    0, // 0011 in 0010
    1, // 0011 in 0011
    0, // 0011 in 0100
    0, // 0011 in 0101
    0, // 0011 in 0110
    1, // 0011 in 0111
    0, // 0011 in 1000
    0, // 0011 in 1001
    0, // 0011 in 1010
    1, // 0011 in 1011
    0, // 0011 in 1100
    0, // 0011 in 1101
    0, // 0011 in 1110
    1, // 0011 in 1111
    0, // 0100 in 0000
    0, // 0100 in 0001
    0, // 0100 in 0010
    0, // 0100 in 0011
    1, // 0100 in 0100
    1, // 0100 in 0101
    1, // 0100 in 0110
    1, // 0100 in 0111
    0, // 0100 in 1000
    0, // 0100 in 1001
    0, // 0100 in 1010
    0, // 0100 in 1011
    1, // 0100 in 1100
    1, // 0100 in 1101
    1, // 0100 in 1110
    1, // 0100 in 1111
    0, // 0101 in 0000
    0, // 0101 in 0001
    0, // 0101 in 0010
    0, // 0101 in 0011
    0, // 0101 in 0100
    1, // 0101 in 0101
    0, // 0101 in 0110
    1, // 0101 in 0111
    0, // 0101 in 1000
    0, // 0101 in 1001
    0, // 0101 in 1010
    0, // 0101 in 1011
    0, // 0101 in 1100
    1, // 0101 in 1101
    0, // 0101 in 1110
    1, // 0101 in 1111
    0, // 0110 in 0000
    0, // 0110 in 0001
    0, // 0110 in 0010
    0, // 0110 in 0011
    0, // 0110 in 0100
    0, // 0110 in 0101
    1, // 0110 in 0110
    1, // 0110 in 0111
    0, // 0110 in 1000
    0, // 0110 in 1001
    0, // 0110 in 1010
    0, // 0110 in 1011
    0, // 0110 in 1100
    0, // 0110 in 1101
    1, // 0110 in 1110
    1, // 0110 in 1111
    0, // 0111 in 0000
    0, // 0111 in 0001
    0, // 0111 in 0010
    0, // 0111 in 0011
    0, // 0111 in 0100
    0, // 0111 in 0101
    0, // 0111 in 0110
    1, // 0111 in 0111
    0, // 0111 in 1000
    0, // 0111 in 1001
    0, // 0111 in 1010
    0, // 0111 in 1011
    0, // 0111 in 1100
    0, // 0111 in 1101
    0, // 0111 in 1110
    1, // 0111 in 1111
    0, // 1000 in 0000
    0, // 1000 in 0001
    0, // 1000 in 0010
    0, // 1000 in 0011
    0, // 1000 in 0100
    0, // 1000 in 0101
    0, // 1000 in 0110
    0, // 1000 in 0111
    1, // 1000 in 1000
    1, // 1000 in 1001
    1, // 1000 in 1010
    1, // 1000 in 1011
    1, // 1000 in 1100
    1, // 1000 in 1101
    1, // 1000 in 1110
    1, // 1000 in 1111
    0, // 1001 in 0000
    0, // 1001 in 0001
    0, // 1001 in 0010
    0, // 1001 in 0011
    0, // 1001 in 0100
    0, // 1001 in 0101
    0, // 1001 in 0110
    0, // 1001 in 0111
    0, // 1001 in 1000
    1, // 1001 in 1001
    0, // 1001 in 1010
    1, // 1001 in 1011
    0, // 1001 in 1100
    1, // 1001 in 1101
    0, // 1001 in 1110
    1, // 1001 in 1111
    0, // 1010 in 0000
    0, // 1010 in 0001
    0, // 1010 in 0010
    0, // 1010 in 0011
    0, // 1010 in 0100
    0, // 1010 in 0101
    0, // 1010 in 0110
    0, // 1010 in 0111
    0, // 1010 in 1000
    0, // 1010 in 1001
    1, // 1010 in 1010
    1, // 1010 in 1011
    0, // 1010 in 1100
    0, // 1010 in 1101
    1, // 1010 in 1110
    1, // 1010 in 1111
    0, // 1011 in 0000
    0, // 1011 in 0001
    0, // 1011 in 0010
    0, // 1011 in 0011
    0, // 1011 in 0100
    0, // 1011 in 0101
    0, // 1011 in 0110
    0, // 1011 in 0111
    0, // 1011 in 1000
    0, // 1011 in 1001
    0, // 1011 in 1010
    1, // 1011 in 1011
    0, // 1011 in 1100
    0, // 1011 in 1101
    0, // 1011 in 1110
    1, // 1011 in 1111
    0, // 1100 in 0000
    0, // 1100 in 0001
    0, // 1100 in 0010
    0, // 1100 in 0011
    0, // 1100 in 0100
    0, // 1100 in 0101
    0, // 1100 in 0110
    0, // 1100 in 0111
    0, // 1100 in 1000
    0, // 1100 in 1001
    0, // 1100 in 1010
    0, // 1100 in 1011
    1, // 1100 in 1100
    1, // 1100 in 1101
    1, // 1100 in 1110
    1, // 1100 in 1111
    0, // 1101 in 0000
    0, // 1101 in 0001
    0, // 1101 in 0010
    0, // 1101 in 0011
    0, // 1101 in 0100
    0, // 1101 in 0101
    0, // 1101 in 0110
    0, // 1101 in 0111
    0, // 1101 in 1000
    0, // 1101 in 1001
    0, // 1101 in 1010
    0, // 1101 in 1011
    0, // 1101 in 1100
    1, // 1101 in 1101
    0, // 1101 in 1110
    1, // 1101 in 1111
    0, // 1110 in 0000
    0, // 1110 in 0001
    0, // 1110 in 0010
    0, // 1110 in 0011
    0, // 1110 in 0100
    0, // 1110 in 0101
    0, // 1110 in 0110
    0, // 1110 in 0111
    0, // 1110 in 1000
    0, // 1110 in 1001
    0, // 1110 in 1010
    0, // 1110 in 1011
    0, // 1110 in 1100
    0, // 1110 in 1101
    1, // 1110 in 1110
    1, // 1110 in 1111
    0, // 1111 in 0000
    0, // 1111 in 0001
    0, // 1111 in 0010
    0, // 1111 in 0011
    0, // 1111 in 0100
    0, // 1111 in 0101
    0, // 1111 in 0110
    0, // 1111 in 0111
    0, // 1111 in 1000
    0, // 1111 in 1001
    0, // 1111 in 1010
    0, // 1111 in 1011
    0, // 1111 in 1100
    0, // 1111 in 1101
    0, // 1111 in 1110
    1, // 1111 in 1111
];

// The table, for a caller to keep and lend: made once, and not at each look-up.
#[tactic(auto, unfolding(crate::proofs::Table::answers))]
pub fn answers() -> [u8; 256]
    ensures { Answers result }
{
    ANSWERS
}

/// Do all bits of a four-bit map stand in another?
#[tactic(auto, using(crate::proofs::DigitLaws::digit_steps))]
pub fn among(answers: &[u8], a: usize, b: usize) -> bool
    requires { Answers answers.now × (a < 16) × (b < 16) }
    ensures { result ≡ bits_among 4 a b }
{
    answers[16 * a + b] == 1
}

/// Do all bits of the lowest `digits` four-bit digits of a map stand in another?
#[tactic(auto, using(crate::proofs::DigitLaws::digit_steps))]
pub fn digits_among(answers: &[u8], digits: usize, a: usize, b: usize) -> bool
    requires { Answers answers.now }
    ensures { result ≡ bits_among (4 * digits) a b }
{
    let mut first = a;
    let mut second = b;
    for _ in 0..digits {
        if !among(answers, first % 16, second % 16) {
            return false;
        }
        first /= 16;
        second /= 16;
    }
    true
}
