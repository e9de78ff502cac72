//! The values that the fields of caps have.
ghost use Rattle.std.specs.Prelude.{◌≡◌, IfOk, is_some};
ghost use Rattle.std.specs.List.{list_any};
ghost use Rattle.gst_value.specs.Common.{common_one, holds};
ghost use Rattle.gst_caps.specs.Common.{contains, have_common, members};
ghost use Rattle.gst_value.specs.Values.{IsNoRange};

use gst_value::{List, One, OutOfMemory};
use std::alloc::Global;
use std::slice;

/// What a field of a structure has: one value or range, or a list of 1 to 64 of one type.
#[derive(Drop)]
pub enum Value {
    One(One),
    Many(List<One>),
}

/// Whether the value or range has something in common with one of these.
fn meets_one(one: &One, others: &[One]) -> bool
    ensures { result ≡ list_any (λ n. is_some (common_one one.now n)) others.now }
{
    others.iter().any(|other| one.meets(other))
}

impl Value {
    /// Whether `one`, which is no range, is a member or in a range that is one.
    pub fn contains(&self, one: &One) -> bool
        requires { IsNoRange one.now }
        ensures { result ≡ contains self.now one.now }
    {
        self.takes(one)
    }

    /// Whether a member holds the value.
    pub(crate) fn takes(&self, one: &One) -> bool
        ensures { result ≡ contains self.now one.now }
    {
        self.members().iter().any(|member| member.holds(one))
    }

    /// The members: a single one is its only member.
    pub(crate) fn members(&self) -> &[One]
        ensures { result.now ≡ members self.now }
    {
        match self {
            Value::One(one) => slice::from_ref(one),
            Value::Many(listed) => listed.as_slice(),
        }
    }

    /// Whether the two have something in common.
    pub(crate) fn meets(&self, other: &Value) -> bool
        ensures { result ≡ have_common self.now other.now }
    {
        let wanted = other.members();
        self.members()
            .iter()
            .any(|member| meets_one(member, wanted))
    }

    /// The same value once more.
    pub fn copy(&self, alloc: Global) -> Result<Value, OutOfMemory>
        ensures { IfOk result (λ made. made ≡ self.now) }
    {
        match self {
            Value::One(one) => Ok(Value::One(one.copy(alloc)?)),
            Value::Many(members) => Ok(Value::Many(copy_members(alloc, members.as_slice())?)),
        }
    }
}

fn copy_members(alloc: Global, members: &[One]) -> Result<List<One>, OutOfMemory>
    ensures { IfOk result (λ made. made ≡ members.now) }
{
    let mut made = List::new(alloc);
    for member in members {
        made.push(alloc, member.copy(alloc)?)?;
    }
    Ok(made)
}
