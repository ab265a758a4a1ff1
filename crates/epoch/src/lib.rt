// An instant as the theory takes it.
#![tactic(auto)]

ghost use Rattle.std.specs.Prelude.{◌≡◌};
ghost use Rattle.epoch.specs.Epoch.{epoch_of};
ghost use Rattle.epoch.specs.Sizes.{Span};

use std::marker::Model;

// N, in milliseconds since 1900 January 0.5, and q, the millionths of a Julian century in it: those of an accepted instant.
#[derive(Clone, Copy, Debug, PartialEq, Eq)]
pub struct Epoch {
    pub n: i64,
    pub q: i64,
}

impl Model for Epoch {
    ghost use Rattle.epoch.specs.Epoch.{Epoch, epoch};
    ghost use Rattle.epoch.specs.Sizes.{InSpan};

    ghost Value = { Epoch };

    ghost view = { λ e. epoch e.n e.q };

    ghost invariant = { λ e. InSpan (epoch e.n e.q) };

    ghost inverse = { λ e. record { n = e.n; q = e.q } };
}

// The epoch of N. A century has a million millionths, so one division by a millionth gives q.
pub fn epoch_of(n: i64) -> Epoch
    requires { Span n }
    ensures { result ≡ epoch_of n }
{
    Epoch {
        n,
        q: (n as u64 / exact::MILLIONTH) as i64,
    }
}
