//! A change in place: items put where elements stood, in the front of a row of places.
ghost use Rattle.std.specs.Prelude.{◌≡◌, ◌+◌, ◌-◌, ◌≤◌, ◌++◌, length, take, drop};
ghost use Rattle.text.specs.Meaning.{replaced};
ghost use Rattle.std.proofs.Math.Seq.{paste};

/// Puts the items where k elements stood at p, among the n in front; the elements behind them move up or down.
// n stands beside the places: the rest of the lent buffer takes what the text grows by
pub(crate) fn splice<E: Copy>(places: &mut [E], n: usize, p: usize, k: usize, items: &[E])
    requires used { n ≤ length places.old }
    requires range { p + k ≤ n }
    requires room { n - k + length items.now ≤ length places.old }
    ensures { places.new ≡ replaced (take n places.old) p k items.now ++ drop (n - k + length items.now) places.old }
{
    let m = items.len();
    move_tail(places, p + k, n, p + m);
    places[p..p + m].copy_from_slice(items);
}

/// Moves the elements at from..n so that they begin at to. Where the two parts overlap, `copy_within` takes them from the
/// end at which none is written over before it is read.
fn move_tail<E: Copy>(places: &mut [E], from: usize, n: usize, to: usize)
    requires tail { from ≤ n }
    requires within { n ≤ length places.old }
    requires fits { to + (n - from) ≤ length places.old }
    ensures { places.new ≡ paste places.old to (drop from places.old) (n - from) }
{
    places.copy_within(from..n, to);
}
