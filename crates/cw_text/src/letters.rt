ghost use Rattle.std.specs.Prelude.{◌<◌, ◌^◌, All};

/// The bytes of a name. All are ASCII.
#[derive(Clone, Copy)]
pub struct Letters<'a> {
    pub bytes: &'a [u8],
    ghost ascii: { All (λ b. b < 128) bytes.now },
}

/// A number that fits an `i64`.
#[derive(Clone, Copy)]
pub struct Whole {
    pub value: u64,
    ghost small: { value < 2 ^ 63 },
}
