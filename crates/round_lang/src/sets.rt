//! Sets of values, as bits.
ghost use Rattle.std.specs.Prelude.{◌≡◌, ◌≤◌, ◌<◌, nat_lt, ◌&&◌};
ghost use Rattle.round_lang.specs.Sets.{is_in, set_of, union, inter, minus, everything, only, size};
ghost use Rattle.round_lang.specs.Sets.{least};

/// A set of values below 64.
#[derive(Clone, Copy, PartialEq, Eq, Debug)]
pub struct ValueSet {
    pub bits: u64,
}

impl ValueSet {
    pub fn empty() -> ValueSet
        ensures { result.bits ≡ 0 }
    {
        ValueSet { bits: 0 }
    }

    pub fn all(values: u32) -> ValueSet
        requires { values ≤ 64 }
        ensures { result.bits ≡ everything values }
    {
        if values == 0 {
            return ValueSet { bits: 0 };
        }
        ValueSet {
            bits: u64::MAX >> (64 - values),
        }
    }

    pub fn single(values: u32, v: u32) -> ValueSet
        requires { values ≤ 64 }
        ensures { result.bits ≡ only values v }
    {
        if v < values {
            ValueSet { bits: 1 << v }
        } else {
            ValueSet { bits: 0 }
        }
    }

    pub fn has(self, values: u32, v: u32) -> bool
        requires { values ≤ 64 }
        ensures { result ≡ (nat_lt v values && is_in self.bits v) }
    {
        v < values && (self.bits >> v) & 1 == 1
    }

    pub fn union(self, other: ValueSet) -> ValueSet
        ensures { result.bits ≡ union self.bits other.bits }
    {
        ValueSet {
            bits: self.bits | other.bits,
        }
    }

    pub fn inter(self, other: ValueSet) -> ValueSet
        ensures { result.bits ≡ inter self.bits other.bits }
    {
        ValueSet {
            bits: self.bits & other.bits,
        }
    }

    pub fn minus(self, other: ValueSet) -> ValueSet
        ensures { result.bits ≡ minus self.bits other.bits }
    {
        ValueSet {
            bits: self.bits & !other.bits,
        }
    }

    pub fn size(self) -> u32
        ensures { result ≡ size self.bits }
    {
        self.bits.count_ones()
    }

    pub fn least(self, values: u32) -> u32
        ensures { result ≡ least values self.bits }
    {
        if self.bits == 0 {
            values
        } else {
            self.bits.trailing_zeros()
        }
    }
}
