#![tactic(auto)]

ghost use Rattle.std.specs.Prelude.{◌≡◌, ℕ, ◌^◌, ◌<◌, ◌≤◌, Bool, true, cond, length, MatchOption, ◌==◌, ◌≢◌};
ghost use Rattle.group.specs.Codes.{Written};
ghost use Rattle.group.specs.Exponents.{Exponents, ExponentLaws, remainder, lowest_bits, sum, difference, product};
ghost use Rattle.group.specs.Operations.{Operations, GroupLaws, power};

pub mod codes;
pub mod reading;

// A kind of exponents, known by its laws: the whole numbers below its order. Two are equal where they are one number.
pub trait Exponent: Copy + PartialEq {
    // A number as it is posted, which may be too large.
    type Posted: Copy;

    ghost exponents: { Exponents };

    ghost laws: { ExponentLaws exponents };

    ghost value: { Self → ℕ };

    ghost below: { (x : Self) → value x < exponents.order };

    ghost number: { Self.Posted → ℕ };

    // The order, as a number.
    fn order() -> Self::Posted
        ensures { number result ≡ exponents.order };

    // How many bits a challenge has.
    fn challenge_bits() -> u32
        ensures { result ≡ exponents.challenge_bits };

    // The remainder of a word by the order.
    fn from_word(word: u64) -> Self
        ensures { value result ≡ remainder exponents word };

    // The challenge of a word.
    fn challenge(word: u64) -> u64
        ensures { result ≡ lowest_bits exponents word };

    // The exponent that was posted, where it is below the order.
    fn read(posted: Self::Posted) -> Option<Self>
        ensures { MatchOption result (exponents.order ≤ number posted) (λ e. value e ≡ number posted) };

    // Whether two posted numbers are the same, fit or not. It is no `==`, which would ask one of every card's numbers, for
    // the one call that compares them.
    fn same_posted(a: Self::Posted, b: Self::Posted) -> bool
        ensures { result ≡ (number a == number b) };

    // The number to post.
    fn post(self) -> Self::Posted
        ensures { number result ≡ value self };

    fn add(self, other: Self) -> Self
        ensures { value result ≡ sum exponents (value self) (value other) };

    fn subtract(self, other: Self) -> Self
        ensures { value result ≡ difference exponents (value self) (value other) };

    fn multiply(self, other: Self) -> Self
        ensures { value result ≡ product exponents (value self) (value other) };

    // The inverse, and 0 for 0.
    fn invert(self) -> Self
        ensures { value result ≡ exponents.inverse (value self) };

    ghost compared: { (a b : Self) → Self.eq a b ≡ (value a == value b) };
}

// A code was to be written into a buffer of another length.
#[derive(Clone, Copy, Debug, PartialEq, Eq)]
pub struct WrongLength;

// A group, known by its laws. What an element means is a point: a card's handles may differ for one point.
pub trait Group {
    type Element: Copy;

    type Exponent: Exponent;

    // How many bytes an element's code has.
    const WIDTH: usize;

    // The same number, where a contract speaks of it.
    ghost WIDTH: { ℕ };

    ghost Point: { Type 0 };

    ghost point: { Self.Element → Point };

    ghost operations: { Operations Point };

    ghost laws: { GroupLaws operations };

    // The group's order: that of its exponents.
    fn order(&self) -> <Self::Exponent as Exponent>::Posted
        ensures is { Self.Exponent.Exponent.number result ≡ operations.order }
        ensures same_order { operations.order ≡ Self.Exponent.Exponent.exponents.order };

    fn one(&self) -> Self::Element
        ensures { point result ≡ operations.one };

    fn generator(&self) -> Self::Element
        ensures { point result ≡ operations.base };

    fn multiply(&self, a: Self::Element, b: Self::Element) -> Self::Element
        ensures { point result ≡ operations.times (point a) (point b) };

    fn invert(&self, a: Self::Element) -> Self::Element
        ensures { point result ≡ operations.inverse (point a) };

    // The power by an exponent.
    fn raise(&self, a: Self::Element, e: Self::Exponent) -> Self::Element
        ensures is { point result ≡ power operations (point a) (Self.Exponent.Exponent.value e) }
        ensures same_order { operations.order ≡ Self.Exponent.Exponent.exponents.order };

    // The power by a word, by squaring.
    fn raise_word(&self, a: Self::Element, e: u64) -> Self::Element
        ensures { point result ≡ power operations (point a) e }
    {
        let mut done = self.one();
        let mut square = a;
        let mut left = e;
        while left > 0 {
            if left % 2 == 1 {
                done = self.multiply(done, square);
            }
            square = self.multiply(square, square);
            left /= 2;
        }
        done
    }

    // Whether two elements mean one point. No `==` of the elements: handles that differ may mean one point, and only the
    // group can tell.
    fn equals(&self, a: Self::Element, b: Self::Element) -> bool
        ensures same { result ≡ true → point a ≡ point b }
        ensures told { point a ≡ point b → result ≡ true };

    // Writes the element's code into a buffer of its length; into another nothing is written.
    fn write(&self, a: Self::Element, out: &mut [u8]) -> Result<(), WrongLength>
        ensures { Written operations.width (operations.code (point a)) out.old out.new result };

    // The element of a code; none where no element has it.
    fn read(&self, code: &[u8]) -> Option<Self::Element>
        ensures { MatchOption result ((x : Point) → operations.code x ≢ code.now) (λ e. operations.code (point e) ≡ code.now) };

    ghost wide: { WIDTH ≡ operations.width };
}
