ghost use Rattle.std.specs.Prelude.{◌≡◌, ◌+◌, suc, min};

/// One more, or the greatest number of the type.
pub fn one_more(count: u32) -> u32
    ensures { result ≡ min (suc count) 4294967295 }
{
    count.saturating_add(1)
}

/// The sum of two, or the greatest number of the type.
pub fn plus(a: u32, b: u32) -> u32
    ensures { result ≡ min (a + b) 4294967295 }
{
    a.saturating_add(b)
}
