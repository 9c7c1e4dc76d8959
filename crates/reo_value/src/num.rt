ghost use Rattle.std.specs.Prelude.{◌≡◌, ◌↔◌, IsSome, IfSome};
ghost use Rattle.reo_value.specs.Num.{IsNumber};

use std::marker::Model;

/// An integer from -2^62 to 2^62 - 1.
#[derive(Clone, Copy, Debug, PartialEq, Eq)]
pub struct Num {
    integer: i64,
}

impl Model for Num {
    ghost use Rattle.std.specs.Prelude.{ℤ};
    ghost use Rattle.reo_value.specs.Num.{IsNumber};

    ghost Value = { ℤ };

    ghost view = { λ n. n.integer };

    ghost invariant = { λ n. IsNumber n.integer };

    ghost inverse = { λ z. record { integer = z } };
}

impl Num {
    /// The number, where it is in range.
    pub fn new(integer: i64) -> Option<Num>
        ensures in_range { IsSome result ↔ IsNumber integer }
        ensures value { IfSome result (λ n. n ≡ integer) }
    {
        if (-(1 << 62)..1 << 62).contains(&integer) {
            Some(Num { integer })
        } else {
            None
        }
    }

    pub fn get(self) -> i64
        ensures value { result ≡ self }
        ensures in_range { IsNumber self }
    {
        self.integer
    }
}
