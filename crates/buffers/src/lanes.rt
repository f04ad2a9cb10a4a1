// A choice without a branch, so that a loop over it is vectorised.
ghost use Rattle.std.specs.Prelude.{◌≡◌, cond};

pub fn select<T: Copy>(chosen: bool, a: T, b: T) -> T
    ensures { result ≡ cond chosen a b }
{
    if chosen { a } else { b }
}
