// A shelf in memory.
ghost use Rattle.std.specs.Prelude.{◌≡◌, ◌≢◌, ◌↔◌, ℕ, List, map, None, IsErrOf, OnOk, OnErr, IfOk, IfSome, ◌<◌, length};
ghost use Rattle.std.specs.List.{IsDistinct};
ghost use Rattle.std.specs.Option.{option_map};
ghost use Rattle.std.specs.Str.{bytes_eq};
ghost use Rattle.rc_base.specs.Memory.{IsListed, OneCall, held, no_calls, shelf_of};
ghost use Rattle.rc_base.specs.Shelves.{IsFront, Loads, Stores};
ghost use Rattle.rc_base.specs.Files.{entries, place_of, with_file};
ghost use Rattle.rc_base.specs.declared.outside.ShelfFault.TheVariants.{Absent};
ghost use Rattle.rc_base.specs.declared.outside.ShelfFault.TheVariants.{Failed as ShelfFailed};

use crate::calls::CallCount;
use crate::{Octets, Piece, Shelf, ShelfFault};
use std::alloc::{AllocError, Global};
use std::marker::Model;

/// Files in memory.
#[derive(Drop)]
pub struct Drawer {
    files: Vec<(String, Vec<u8>)>,
    calls: CallCount,
}

impl Model for Drawer {
    ghost use Rattle.rc_base.specs.Memory.{DrawerState};
    ghost use Rattle.rc_base.specs.Files.{entries};

    ghost Value = { DrawerState };

    ghost view = { λ d. record { files = entries d.files.items; calls = d.calls } };
}

impl Drawer {
    /// A shelf of these files. The calls of `load` and `store`, numbered together, whose numbers are
    /// listed fail.
    pub fn new(alloc: Global, files: Vec<(String, Vec<u8>)>, fails: Vec<u64>) -> Drawer
        requires { IsDistinct bytes_eq (map (λ e. e.name) (entries files.items)) }
        ensures { result ≡ record { files = entries files.items; calls = no_calls fails.items } }
    {
        let _ = alloc;
        Drawer {
            files,
            calls: CallCount::new(fails),
        }
    }

    /// What stands under the name, or none exactly where the name isn't there.
    pub fn file(&self, name: &str) -> Option<&[u8]>
        ensures { option_map (λ x. x.now) result ≡ held self.now.files name.now }
    {
        find(&self.files, name)
    }
}

/// Where the file of this name stands.
fn place_of(files: &[(String, Vec<u8>)], name: &str) -> Option<usize>
    ensures place { result ≡ place_of (entries files.now) name.now }
    ensures within { IfSome result (λ place. place < length files.now) }
{
    let mut rest = files;
    let mut place = 0;
    while let [file, after @ ..] = rest {
        if name == file.0.as_str() {
            return Some(place);
        }
        rest = after;
        place += 1;
    }
    None
}

/// What stands under the name.
#[tactic(auto, using(crate::proofs::Held::held_at, crate::proofs::Held::not_held))]
fn find<'a>(files: &'a [(String, Vec<u8>)], name: &str) -> Option<&'a [u8]>
    ensures { option_map (λ x. x.now) result ≡ held (entries files.now) name.now }
{
    match place_of(files, name) {
        Some(place) => Some(files[place].1.as_slice()),
        None => None,
    }
}

/// The first bytes of a file.
fn front(alloc: Global, file: &[u8], most: u32) -> Result<Piece, AllocError>
    ensures { IfOk result (IsFront file.now most) }
{
    let whole = file.len() <= most as usize;
    let front = if whole { file } else { &file[..most as usize] };
    Ok(Piece {
        bytes: Octets::new(front.to_vec(alloc)?),
        whole,
    })
}

/// Puts the bytes in the place of what stands under the name, or behind all others.
#[tactic(auto, using(crate::proofs::Held::with_file_at, crate::proofs::Held::with_file_behind))]
fn put(
    alloc: Global,
    files: &mut Vec<(String, Vec<u8>)>,
    name: &str,
    bytes: &[u8],
) -> Result<(), AllocError>
    ensures ok { OnOk result (entries files.new.items ≡ with_file (entries files.old.items) name.now bytes.now) }
    ensures err { OnErr result (entries files.new.items ≡ entries files.old.items) }
{
    let value = bytes.to_vec(alloc)?;
    match place_of(files, name) {
        Some(place) => files[place].1 = value,
        None => files.push((String::from_str(alloc, name)?, value))?,
    }
    Ok(())
}

impl Shelf for Drawer {
    ghost use Rattle.rc_base.specs.Memory.{shelf_of};

    ghost state = { shelf_of };

    fn load(&mut self, alloc: Global, name: &str, most: u32) -> Result<Piece, ShelfFault>
        ensures loads { Loads name.now most (shelf_of self.old) (shelf_of self.new) result }
        ensures listed { IsErrOf result ShelfFailed ↔ IsListed self.old.calls }
        ensures absent { IsErrOf result Absent → (held self.old.files name.now ≡ None) × (self.new.calls.faults ≡ self.old.calls.faults) }
        ensures missing { held self.old.files name.now ≡ None → ¬ IsListed self.old.calls → IsErrOf result Absent }
        ensures call { OneCall self.old.calls self.new.calls }
        ensures files { self.new.files ≡ self.old.files }
    {
        if self.calls.fails_now() {
            return Err(ShelfFault::Failed);
        }
        let Some(file) = find(&self.files, name) else {
            return Err(ShelfFault::Absent);
        };
        Ok(front(alloc, file, most)?)
    }

    #[tactic(auto, using(crate::proofs::Held::held_with_same, crate::proofs::Held::held_with_other))]
    fn store(&mut self, alloc: Global, name: &str, bytes: &[u8]) -> Result<(), ShelfFault>
        ensures stores { Stores name.now bytes.now (shelf_of self.old) (shelf_of self.new) result }
        ensures listed { IsErrOf result ShelfFailed ↔ IsListed self.old.calls }
        ensures call { OneCall self.old.calls self.new.calls }
        ensures failed { OnErr result (self.new.files ≡ self.old.files) }
    {
        if self.calls.fails_now() {
            return Err(ShelfFault::Failed);
        }
        put(alloc, &mut self.files, name, bytes)?;
        Ok(())
    }
}
