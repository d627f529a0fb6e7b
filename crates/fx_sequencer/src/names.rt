//! Sets of names, as maps without values: the first of them, and those that stay.
ghost use Rattle.std.specs.Prelude.{◌≡◌, cond};
ghost use Rattle.std.specs.List.{slice_get};
ghost use Rattle.std.specs.Option.{option_copied};
ghost use Rattle.fx_base.specs.Set as set;
ghost use Rattle.fx_sequencer.specs.Pending.{without};

use fx_base::{FixedMap, FixedName};

/// The first name.
pub fn first_name<const N: usize>(names: &FixedMap<N, ()>) -> Option<&FixedName<N>>
    ensures { option_copied result ≡ slice_get (set.items names.now) 0 }
{
    match names.iter().next() {
        Some((name, _)) => Some(name),
        None => None,
    }
}

/// Takes the first name out.
pub fn take_first<const N: usize>(names: &mut FixedMap<N, ()>) -> Option<FixedName<N>>
    ensures first { result ≡ slice_get (set.items names.old) 0 }
    ensures rest { names.new ≡ without result names.old }
{
    let Some(name) = first_name(names) else {
        return None;
    };
    let name = *name;
    names.remove(&name);
    Some(name)
}

/// Takes a name out unless it is pending.
pub fn keep_if<const N: usize>(names: &mut FixedMap<N, ()>, name: &FixedName<N>, pending: bool)
    ensures { names.new ≡ cond pending names.old (set.remove names.old name.now) }
{
    if !pending {
        names.remove(name);
    }
}
