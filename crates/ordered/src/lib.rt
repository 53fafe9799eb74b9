// Tests in a row, where the first that fails is named: the envelope of a state and the acceptance of an airframe are such rows. Of two
// rows that follow one another, `Option::or` takes the first that fails.
#![tactic(auto)]

ghost use Rattle.std.specs.Prelude.{IfSome, ◌+◌, ◌≡◌, ◌≤◌};
ghost use Rattle.std.specs.Option.{option_map};

// The number of a row's failed test, counted on from the `count` tests before it.
pub fn after(count: u32, failed: Option<u32>) -> Option<u32>
    requires count_bound { count ≤ 1000 }
    requires failed_bound { IfSome failed (λ n. n ≤ 1000) }
    ensures { result ≡ option_map (λ n. count + n) failed }
{
    failed.map(|n| count + n)
}
