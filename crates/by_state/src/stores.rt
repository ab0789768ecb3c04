// Stores into lists that are lent: an array that is lent as a list is known to be as long as its type says.
ghost use Rattle.std.specs.Prelude.{◌≡◌, ◌<◌, length, set};

// Puts a number at a place. Code writes into its own arrays itself; the function stays, since it is public.
pub fn put(list: &mut [u16], at: usize, x: u16)
    requires { at < length list.old }
    ensures { list.new ≡ set list.old at x }
{
    list[at] = x;
}
