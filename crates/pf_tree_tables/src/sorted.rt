//! Sorted items, none of which tie.
ghost use Rattle.std.specs.Prelude.{◌≡◌, ◌<◌, ◌≤◌, MatchOption, length, vec_capacity};
ghost use Rattle.std.specs.List.{Contains};
ghost use Rattle.pf_tree_tables.specs.Ordered.{TiesWithNone, AreAscending, AreBefore, IsFirstNotBefore, IsLeastOf, Puts, TakesItem};

/// The least item that is not before another.
pub(crate) fn least_from<K: Ord + Copy>(items: &[K], from: &K) -> Option<K>
    requires { AreAscending K.cmp items.now }
    ensures { MatchOption result (AreBefore K.cmp items.now from.now) (IsLeastOf K.cmp items.now from.now) }
{
    let item = items.get(place_of(items, from))?;
    Some(*item)
}

/// The greatest item that is not behind another.
pub(crate) fn greatest_to<K: Ord + Copy>(items: &[K], to: &K) -> Option<K>
    requires { AreAscending K.cmp items.now }
    ensures { MatchOption result (AreBefore (λ a b. K.cmp b a) items.now to.now) (IsLeastOf (λ a b. K.cmp b a) items.now to.now) }
{
    match items.binary_search(to) {
        Ok(place) => Some(items[place]),
        Err(0) => None,
        Err(place) => Some(items[place - 1]),
    }
}

/// Takes out an item that is there.
pub(crate) fn take<K: Ord + Copy>(items: &mut Vec<K>, item: &K)
    requires ascend { AreAscending K.cmp items.old.items }
    requires there { Contains items.old.items item.now }
    ensures taken { TakesItem K.cmp items.old.items item.now items.new.items }
    ensures room { vec_capacity items.new ≡ vec_capacity items.old }
{
    let place = place_of(items, item);
    items.remove(place);
}

/// Puts an item where it belongs. There is room for it, so this takes no memory.
pub(crate) fn put<K: Ord + Copy>(items: &mut Vec<K>, item: K)
    requires ascend { AreAscending K.cmp items.old.items }
    requires apart { TiesWithNone K.cmp items.old.items item }
    requires room { length items.old.items < vec_capacity items.old }
    ensures put { Puts K.cmp items.old.items item items.new.items }
    ensures room { vec_capacity items.old ≤ vec_capacity items.new }
{
    let place = place_of(items, &item);
    if let Err(_) = items.insert(place, item) {
        unreachable!();
    }
}

/// The place of the first item that is not before another.
fn place_of<K: Ord + Copy>(items: &[K], wanted: &K) -> usize
    requires { AreAscending K.cmp items.now }
    ensures { IsFirstNotBefore K.cmp items.now wanted.now result }
{
    match items.binary_search(wanted) {
        Ok(place) => place,
        Err(place) => place,
    }
}
