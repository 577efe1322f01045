// Lists that are made of others.
ghost use Rattle.std.specs.Prelude.{◌≡◌, ℕ, ◌+◌, ◌<◌, ◌≤◌, ◌^◌, length, take, drop, get_or, ◌++◌, replicate, IfOk, IsTrue, ◌↔◌, false};
ghost use Rattle.flow_disk.specs.Disk.{put_at};
ghost use Rattle.flow_memory_directory.specs.Marks.{is_lost, mark_at, after_sync, after_failure, IsMarked, block_at};

use crate::mark::Mark;
use std::alloc::{AllocError, Global};

/// These octets with others put at a place, over those there and past the end.
pub(crate) fn put(
    alloc: Global,
    old: &[u8],
    at: usize,
    octets: &[u8],
) -> Result<Vec<u8>, AllocError>
    requires place { at ≤ length old.now }
    requires fits { at + length octets.now ≤ 2 ^ 62 }
    ensures { IfOk result (λ made. made.items ≡ put_at old.now at octets.now) }
{
    let mut made = Vec::new(alloc);
    made.extend_from_slice(&old[..at])?;
    made.extend_from_slice(octets)?;
    let end = (at + octets.len()).min(old.len());
    made.extend_from_slice(&old[end..])?;
    Ok(made)
}

/// So many marks of octets that are dirty.
fn dirty(alloc: Global, count: usize) -> Result<Vec<Mark>, AllocError>
    ensures { IfOk result (λ made. made.items ≡ replicate count Mark.Dirty) }
{
    let mut made = Vec::new(alloc);
    'marks: for _place in 0..count {
        made.push(Mark::Dirty)?;
    }
    Ok(made)
}

/// So many marks of octets that are clean.
pub(crate) fn clean(alloc: Global, count: usize) -> Result<Vec<Mark>, AllocError>
    ensures long { IfOk result (λ made. length made.items ≡ count) }
    ensures clean { IfOk result (λ made. (place : ℕ) → mark_at made.items place ≡ Mark.Clean) }
{
    let mut made = Vec::new(alloc);
    'marks: for _place in 0..count {
        made.push(Mark::Clean)?;
    }
    Ok(made)
}

/// Marks with others put at a place, over those there and past the end.
fn put_over(alloc: Global, old: &[Mark], at: usize, marks: &[Mark]) -> Result<Vec<Mark>, AllocError>
    requires place { at ≤ length old.now }
    requires fits { at + length marks.now ≤ 2 ^ 62 }
    ensures { IfOk result (λ made. made.items ≡ take at old.now ++ marks.now ++ drop (at + length marks.now) old.now) }
{
    let mut made = Vec::new(alloc);
    made.extend_from_slice(&old[..at])?;
    made.extend_from_slice(marks)?;
    let end = (at + marks.len()).min(old.len());
    made.extend_from_slice(&old[end..])?;
    Ok(made)
}

/// The marks after a write of so many octets at a place.
pub(crate) fn put_marks(
    alloc: Global,
    old: &[Mark],
    at: usize,
    count: usize,
) -> Result<Vec<Mark>, AllocError>
    requires place { at ≤ length old.now }
    requires fits { at + count ≤ 2 ^ 62 }
    ensures { IfOk result (λ made. IsMarked old.now at count made.items) }
{
    let marks = dirty(alloc, count)?;
    let made = put_over(alloc, old, at, &marks)?;
    Ok(made)
}

/// The marks after a good sync.
pub(crate) fn sync_marks(marks: &mut [Mark])
    ensures { (place : ℕ) → mark_at marks.new place ≡ after_sync (mark_at marks.old place) }
{
    'marks: for mark in marks.iter_mut() {
        *mark = mark.after_sync();
    }
}

/// The marks after a failed sync.
pub(crate) fn fail_marks(marks: &mut [Mark])
    ensures { (place : ℕ) → mark_at marks.new place ≡ after_failure (mark_at marks.old place) }
{
    'marks: for mark in marks.iter_mut() {
        *mark = mark.after_failure();
    }
}

/// What is at a place after the octets that are not lost were written over what there was.
fn block(octets: &[u8], marks: &[Mark], blocks: &[u8], place: usize) -> u8
    requires { length marks.now ≡ length octets.now }
    ensures { result ≡ block_at octets.now marks.now blocks.now place }
{
    if octets.len() <= place || marks[place].is_lost() {
        if place < blocks.len() {
            blocks[place]
        } else {
            0
        }
    } else {
        octets[place]
    }
}

/// So many octets, of which those that are not lost were written over what there was.
pub(crate) fn merged(
    alloc: Global,
    octets: &[u8],
    marks: &[Mark],
    blocks: &[u8],
    count: usize,
) -> Result<Vec<u8>, AllocError>
    requires { length marks.now ≡ length octets.now }
    ensures long { IfOk result (λ made. length made.items ≡ count) }
    ensures each { IfOk result (λ made. (place : ℕ) → place < count
        → get_or made.items place 0 ≡ block_at octets.now marks.now blocks.now place) }
{
    let mut made = Vec::new(alloc);
    'places: for place in 0..count {
        made.push(block(octets, marks, blocks, place))?;
    }
    Ok(made)
}

/// Whether no octet is lost.
pub(crate) fn has_no_lost(marks: &[Mark]) -> bool
    ensures { IsTrue result ↔ ((place : ℕ) → is_lost (mark_at marks.now place) ≡ false) }
{
    for mark in marks {
        if mark.is_lost() {
            return false;
        }
    }
    true
}

/// Whether each octet is clean.
pub(crate) fn are_clean(marks: &[Mark]) -> bool
    ensures { IsTrue result ↔ ((place : ℕ) → mark_at marks.now place ≡ Mark.Clean) }
{
    for mark in marks {
        if *mark != Mark::Clean {
            return false;
        }
    }
    true
}
