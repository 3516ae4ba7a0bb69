// How many digits a number needs.
#![tactic(auto)]

ghost use Rattle.std.specs.Prelude.{◌≤◌, ◌≡◌, length};
ghost use Rattle.definitions.specs.Texts.{decimal};

// At most 20 for a number of the code.
pub fn decimal_length(n: usize) -> usize
    ensures digits { result ≡ length (decimal n) }
    ensures few { result ≤ 20 }
{
    let mut digits = 1;
    let mut front = n;
    while 10 <= front {
        front /= 10;
        digits += 1;
    }
    digits
}
