ghost use Rattle.std.specs.Prelude.{◌≡◌, ◌*◌, ◌%◌, ◌^◌, ◌<◌, ◌≤◌};

// The product of two numbers of at most 13 bits is below 2^26.
fn product(a: u32, b: u32) -> u32
    requires a_small { a < 8192 }
    requires b_small { b < 8192 }
    ensures is { result ≡ a * b }
    ensures bound { result < 2 ^ 26 }
{
    a * b
}

// The product of two remainders by m, again a remainder.
pub(crate) fn multiply_modulo(a: u32, b: u32, m: u32) -> u32
    requires a_below { a < m }
    requires b_below { b < m }
    requires small { m ≤ 8192 }
    ensures { result ≡ (a * b) % m }
{
    product(a, b) % m
}

// The power of a remainder by m, by squaring. `Group::raise_word` squares too, but by a group's laws, and here the
// remainders need be no elements of one: a trait of multiplication for both would be longer than the two loops.
pub(crate) fn power_modulo(a: u32, e: u32, m: u32) -> u32
    requires below { a < m }
    requires large { 1 < m }
    requires small { m ≤ 8192 }
    ensures { result ≡ (a ^ e) % m }
{
    let mut done = 1;
    let mut square = a;
    let mut left = e;
    while left > 0 {
        if left % 2 == 1 {
            done = multiply_modulo(done, square, m);
        }
        square = multiply_modulo(square, square, m);
        left /= 2;
    }
    done
}
