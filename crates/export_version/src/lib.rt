// The version that the planner tells.
#![tactic(auto)]

ghost use Rattle.std.specs.Prelude.{◌≡◌};

// major * 65536 + minor * 256 + patch.
pub fn version() -> u32
    ensures { result ≡ 65536 }
{
    65536
}
