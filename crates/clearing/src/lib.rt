// Lent memory that ends as zeros: posting buffers, secret words, working places.
#![tactic(auto)]

ghost use Rattle.std.specs.Prelude.{◌≡◌};
ghost use Rattle.clearing.specs.Zeros.{zeros};

// What has a zero.
pub trait Zero: Copy {
    ghost zero: { Self };

    fn zero() -> Self
        ensures { result ≡ zero };
}

impl Zero for u8 {
    ghost zero = { 0 };

    fn zero() -> u8 {
        0
    }
}

impl Zero for u64 {
    ghost zero = { 0 };

    fn zero() -> u64 {
        0
    }
}

// Writes zero into each place. Not by the slice's `fill`: it requires that a clone cannot fail, which is not known of
// every `T: Copy`, so that the proof of that call does not close.
pub fn clear<T: Zero>(places: &mut [T])
    ensures { places.new ≡ zeros T.Zero.zero places.old }
{
    for place in places.iter_mut() {
        *place = T::zero();
    }
}

// Holds lent places, and clears them when it ends, however the function that holds it is left.
pub struct Clearing<'a, T: Zero> {
    pub places: &'a mut [T],
}

impl<T: Zero> Drop for Clearing<'_, T> {
    fn drop(self)
        ensures { self.exit.0.now ≡ zeros T.Zero.zero self.entry.places.now }
    {
        clear(self.places);
        let Clearing { places: _ } = self;
    }
}
