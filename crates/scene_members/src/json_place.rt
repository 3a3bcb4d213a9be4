//! Where a value stands in a scenario, with the refusal of a value that is missing, wrong or out of range.
ghost use Rattle.std.specs.Prelude.{◌≡◌, ◌≢◌, ◌++◌, IfOk, OnOk};
ghost use Rattle.ccp_base.specs.Outside.{no_memory};
ghost use Rattle.scene_members.specs.Paths.{path_of, printable, named_path, shown_byte};
ghost use Rattle.scene_members.specs.declared.fault.MemberFault.TheVariants as fault;
ghost use Rattle.scene_members.specs.declared.json_place.JsonPlace.TheVariants as places;

use crate::fault::{MemberFault, Path};
use crate::key::Key;
use ccp_base::{Bytes, NoMemory};
use std::alloc::{AllocError, Global};

/// Where a value stands in a scenario.
#[derive(Clone, Copy)]
pub(crate) enum JsonPlace {
    Whole,
    /// A member of the whole.
    Top(Key),
    /// The case of this number.
    Case(usize),
    /// A member of a case.
    In(usize, Key),
    /// An item of a member of a case.
    Item(usize, Key, usize),
    /// A member of `shared`.
    Shared(Key),
}

fn case_text(alloc: Global, i: usize) -> Result<String, AllocError>
    ensures { IfOk result (λ text. text.bytes.items ≡ path_of (places.Case i)) }
{
    format!(in alloc; "cases[{i}]")
}

fn member_text(alloc: Global, i: usize, key: Key) -> Result<String, AllocError>
    ensures { IfOk result (λ text. text.bytes.items ≡ path_of (places.In i key)) }
{
    format!(in alloc; "cases[{i}].{}", key.word())
}

fn item_text(alloc: Global, i: usize, key: Key, j: usize) -> Result<String, AllocError>
    ensures { IfOk result (λ text. text.bytes.items ≡ path_of (places.Item i key j)) }
{
    format!(in alloc; "cases[{i}].{}[{j}]", key.word())
}

fn shared_text(alloc: Global, key: Key) -> Result<String, AllocError>
    ensures { IfOk result (λ text. text.bytes.items ≡ path_of (places.Shared key)) }
{
    format!(in alloc; "shared.{}", key.word())
}

impl JsonPlace {
    fn text(self, alloc: Global) -> Result<String, AllocError>
        ensures { IfOk result (λ text. text.bytes.items ≡ path_of self) }
    {
        match self {
            JsonPlace::Whole => Ok(String::new(alloc)),
            JsonPlace::Top(key) => String::from_str(alloc, key.word()),
            JsonPlace::Case(i) => case_text(alloc, i),
            JsonPlace::In(i, key) => member_text(alloc, i, key),
            JsonPlace::Item(i, key, j) => item_text(alloc, i, key, j),
            JsonPlace::Shared(key) => shared_text(alloc, key),
        }
    }

    fn path(self, alloc: Global) -> Result<Path, NoMemory>
        ensures { IfOk result (λ path. path ≡ path_of self) }
    {
        Ok(Bytes::from_vec(self.text(alloc)?.into_bytes()))
    }

    /// That the value here isn't there.
    pub fn missing_fault(self, alloc: Global) -> MemberFault
        ensures { result ≢ fault.NoMemory no_memory → result ≡ fault.Missing (path_of self) }
    {
        match self.path(alloc) {
            Ok(path) => MemberFault::Missing(path),
            Err(error) => MemberFault::NoMemory(error),
        }
    }

    /// That the value here isn't of its kind.
    pub fn wrong_fault(self, alloc: Global) -> MemberFault
        ensures { result ≢ fault.NoMemory no_memory → result ≡ fault.Wrong (path_of self) }
    {
        match self.path(alloc) {
            Ok(path) => MemberFault::Wrong(path),
            Err(error) => MemberFault::NoMemory(error),
        }
    }

    /// That the value here isn't in its range.
    pub fn range_fault(self, alloc: Global) -> MemberFault
        ensures { result ≢ fault.NoMemory no_memory → result ≡ fault.Range (path_of self) }
    {
        match self.path(alloc) {
            Ok(path) => MemberFault::Range(path),
            Err(error) => MemberFault::NoMemory(error),
        }
    }
}

/// A byte of a name as paths show it.
fn shown_byte(byte: u8) -> u8
    ensures { result ≡ shown_byte byte }
{
    if 0x20 <= byte && byte <= 0x7E {
        byte
    } else {
        b'?'
    }
}

fn put_printable(path: &mut Path, name: &[u8]) -> Result<(), NoMemory>
    ensures { OnOk result (path.new ≡ path.old ++ printable name.now) }
{
    let mut rest = name;
    while let Some((byte, later)) = rest.split_first() {
        path.push(shown_byte(*byte))?;
        rest = later;
    }
    Ok(())
}

fn named_path(alloc: Global, key: Key, name: &[u8]) -> Result<Path, NoMemory>
    ensures { IfOk result (λ path. path ≡ named_path key name.now) }
{
    let mut path = Bytes::new(alloc);
    path.extend(key.word().as_bytes())?;
    path.push(b'.')?;
    put_printable(&mut path, name)?;
    Ok(path)
}

/// That a member which the scenario names by itself has no name, or isn't of its kind.
pub(crate) fn named_member_fault(alloc: Global, key: Key, name: &[u8]) -> MemberFault
    ensures { result ≢ fault.NoMemory no_memory → result ≡ fault.Wrong (named_path key name.now) }
{
    match named_path(alloc, key, name) {
        Ok(path) => MemberFault::Wrong(path),
        Err(error) => MemberFault::NoMemory(error),
    }
}
