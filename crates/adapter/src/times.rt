// What is known of a parent that has an anchor, but for its line.
ghost use Rattle.std.specs.Prelude.{◌^◌, ◌≤◌};

pub(crate) mod stamp;

// It has ghost fields, so each literal gives every field.
#[derive(Clone, Copy)]
pub(crate) struct Times {
    // When its last anchor arrived.
    anchor: u64,
    // How many packets were taken after that.
    count: u32,
    // What arrives before is no longer wanted.
    from: u64,
    // When the last packet taken arrived.
    heard_to: u64,
    ghost early: { anchor ≤ 2 ^ 60 },
    ghost counted: { count ≤ 100000 },
}
