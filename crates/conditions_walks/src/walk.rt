//! Look-ups that go along with a map.

ghost use Rattle.std.specs.Prelude.{◌≡◌, None};
ghost use Rattle.std.specs.Option.{option_copied, option_map};
ghost use Rattle.std.specs.BTreeMap as tree;
ghost use Rattle.std.specs.BTreeMap.{is_at};
ghost use Rattle.std.specs.Map.{lookup};
ghost use Rattle.std.specs.Map.Iter.{deref};
ghost use Rattle.conditions_walks.specs.Walk.{IsPast};

use std::cmp::Ordering;
use std::collections::BTreeMap;
use std::collections::btree_map::Iter;
use std::marker::Model;

/// A map that is asked for one key after another. Each look-up goes on from where the last one came to, so those of
/// keys that ascend walk the map once, all together. A key that doesn't ascend is searched for.
#[derive(Drop)]
pub struct Walk<'a, K: Ord, X> {
    map: &'a BTreeMap<K, X>,
    /// The key of the last entry that was passed.
    passed: Option<&'a K>,
    /// The first entry that wasn't.
    next: Option<(&'a K, &'a X)>,
    /// Those behind it.
    rest: Iter<'a, K, X>,
}

impl<'a, K: Ord, X> Model for Walk<'a, K, X> {
    ghost use Rattle.std.specs.Option.{option_map};
    ghost use Rattle.std.specs.Prelude.{List};
    ghost use Rattle.std.specs.Map.Iter.{deref, deref_pair};
    ghost use Rattle.conditions_walks.specs.Walk.{IsAlong, left};

    ghost Value = { List (K × X) };

    ghost view = { λ w. w.map.now.entries };

    ghost invariant = { λ w. IsAlong K.cmp w.map.now.entries (option_map deref w.passed)
        (left (option_map deref_pair w.next) w.rest) };
}

impl<'a, K: Ord, X> Walk<'a, K, X> {
    /// From the map's beginning.
    pub fn new(map: &'a BTreeMap<K, X>) -> Walk<'a, K, X>
        ensures { result ≡ map.now.entries }
    {
        let mut rest = map.iter();
        let next = rest.next();
        Walk {
            map,
            passed: None,
            next,
            rest,
        }
    }

    /// The value at a key.
    pub fn get(&mut self, key: &K) -> Option<&'a X>
        ensures stays { self.new ≡ self.old }
        ensures value { option_copied result ≡ lookup (is_at (K.cmp key.now)) self.old }
    {
        while let Some((at, value)) = self.next {
            match key.cmp(at) {
                Ordering::Less => return searched(self.map, self.passed, key),
                Ordering::Equal => return Some(value),
                Ordering::Greater => {
                    self.passed = Some(at);
                    self.next = self.rest.next();
                }
            }
        }
        searched(self.map, self.passed, key)
    }
}

/// The value at a key that isn't among the entries left: it was passed, or there is none.
fn searched<'a, K: Ord, X>(map: &'a BTreeMap<K, X>, passed: Option<&'a K>, key: &K) -> Option<&'a X>
    requires { IsPast K.cmp (option_map deref passed) key.now → tree.get K.cmp map.now key.now ≡ None }
    ensures { option_copied result ≡ tree.get K.cmp map.now key.now }
{
    if let Some(passed) = passed
        && passed.cmp(key) != Ordering::Less
    {
        return map.get(key);
    }
    None
}
