// Equality of configurations and of whole records.
ghost use Rattle.std.specs.Prelude.{◌≡◌};
ghost use Rattle.records.specs.Same.{same_config, same_record};

use crate::{Config, Record};

// All values of two configurations are equal.
#[tactic(auto, using(crate::proofs::Derived::config_is))]
pub fn same_config(a: Config, b: Config) -> bool
    ensures { result ≡ same_config a b }
{
    a == b
}

// Whether all values are equal, also where nothing is sent.
#[tactic(auto, using(crate::proofs::Derived::record_is))]
pub fn same_record(a: Record, b: Record) -> bool
    ensures { result ≡ same_record a b }
{
    a == b
}
