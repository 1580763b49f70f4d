// An array with a count, as C sees it: its first places hold a list, the others zeros.
ghost use Rattle.std.specs.Prelude.{◌≡◌, ◌<◌, length, take};
ghost use Rattle.lists.specs.Defs.{padded, without};
ghost use Rattle.lists.specs.Held.{Held};

// The element at i is taken out of the first `count`: the later ones move down, and the last place is cleared.
pub fn take_out<T: Copy>(items: &mut [T], count: usize, i: usize, zero: T)
    requires { Held (length items.old) zero items.old count × (i < count) }
    ensures { items.new ≡ padded (length items.old) zero (without i (take count items.old)) }
{
    items.copy_within(i + 1..count, i);
    items[count - 1] = zero;
}
