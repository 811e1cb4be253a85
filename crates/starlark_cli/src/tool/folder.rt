//! The files that paths stand for, and those in folders.
ghost use Rattle.std.specs.Prelude.{◌≡◌, ◌++◌, IfOk, OnOk, map, string_bytes};
ghost use Rattle.starlark_cli.specs.Tool.Folders.{AddsBelow, AddsPath, IsFolderBelow, IsPrefixBelow, KeepsBelow, StandFor};
ghost use Rattle.starlark_cli.specs.Tool.Folders.{has_ending, is_starlark_name, is_whole_name, prefix};
ghost use Rattle.starlark_lexer.specs.Tokens.{Text};

use crate::tool::source::reason_of;
use std::alloc::{AllocError, Global};
use std::fs::DirEntry;
use std::rt::Files;
use std::{fs, io};

/// The path that stands for standard input.
pub const INPUT: &str = "-";

/// What is to be read.
#[derive(Drop)]
pub enum Found {
    Input,
    /// The file of this path.
    File(String),
    /// The folder of this path, which could not be read for this reason.
    Unread(String, String),
}

/// A file, or a folder with a slash at its end, whose turn comes later.
#[derive(Drop)]
struct Later {
    path: String,
    is_folder: bool,
}

/// A file or a folder that is in a folder.
#[derive(Drop, PartialEq, Eq, PartialOrd, Ord)]
struct Child {
    name: String,
    is_folder: bool,
}

/// What is in a folder.
#[derive(Drop)]
struct Listed {
    children: Vec<Child>,
    /// Why some of it could not be read.
    reason: Option<String>,
}

/// What the paths stand for, in order: `-` for standard input, a folder for the files of Starlark below it.
///
/// Fails if memory runs out.
pub fn found_at<R: Files + AllocGlobal + Clone + Drop>(
    rt: &R,
    paths: &[&str],
) -> Result<Vec<Found>, AllocError>
    ensures { IfOk result (λ found. StandFor (map (λ p. p.now) paths.now) found.items) }
{
    let mut found = Vec::new(rt.alloc());
    for path in paths {
        add_path(rt, &mut found, path)?;
    }
    Ok(found)
}

/// Adds what a path stands for.
fn add_path<R: Files + AllocGlobal + Clone + Drop>(
    rt: &R,
    found: &mut Vec<Found>,
    path: &str,
) -> Result<(), AllocError>
    ensures { OnOk result (AddsPath path.now found.old.items found.new.items) }
{
    if path == INPUT {
        found.push(Found::Input)?;
        return Ok(());
    }
    if is_folder(rt, path) {
        return add_folder(rt, found, path);
    }
    found.push(Found::File(String::from_str(rt.alloc(), path)?))?;
    Ok(())
}

/// Whether a path, or what it links to, is a folder.
fn is_folder<R: Files>(rt: &R, path: &str) -> bool {
    match fs::metadata(rt, path) {
        Ok(metadata) => metadata.is_dir(),
        Err(_) => false,
    }
}

/// Adds the files of Starlark below a folder, in the order of their names.
fn add_folder<R: Files + AllocGlobal + Clone + Drop>(
    rt: &R,
    found: &mut Vec<Found>,
    folder: &str,
) -> Result<(), AllocError>
    ensures { OnOk result (AddsBelow folder.now found.old.items found.new.items) }
{
    let mut later = Vec::new(rt.alloc());
    let prefix = prefix_of(rt.alloc(), folder)?;
    add_children(rt, found, &mut later, folder, &prefix)?;
    for _ in 0..u64::MAX {
        let Some(next) = later.pop() else {
            return Ok(());
        };
        if next.is_folder {
            add_children(rt, found, &mut later, &next.path, &next.path)?;
        } else {
            found.push(Found::File(next.path))?;
        }
    }
    Ok(())
}

/// What the paths of the files in a folder begin with.
fn prefix_of(alloc: Global, folder: &str) -> Result<String, AllocError>
    ensures { IfOk result (λ p. string_bytes p ≡ prefix folder.now) }
{
    if folder == "." {
        return Ok(String::new(alloc));
    }
    let mut prefix = String::from_str(alloc, folder)?;
    if !folder.as_bytes().ends_with(b"/") {
        prefix.push_str("/")?;
    }
    Ok(prefix)
}

/// Adds the files and folders in a folder to those whose turn comes later, the first name last.
fn add_children<R: Files + AllocGlobal + Clone + Drop>(
    rt: &R,
    found: &mut Vec<Found>,
    later: &mut Vec<Later>,
    folder: &str,
    prefix: &str,
) -> Result<(), AllocError>
    ensures found { (top : Text) → IsFolderBelow top folder.now → OnOk result (AddsBelow top found.old.items found.new.items) }
    ensures later { (top : Text) → IsPrefixBelow top prefix.now → OnOk result (KeepsBelow top later.old.items later.new.items) }
{
    let alloc = rt.alloc();
    let Listed { children, reason } = children_of(rt, folder)?;
    if let Some(reason) = reason {
        found.push(Found::Unread(String::from_str(alloc, folder)?, reason))?;
    }
    add_each(alloc, later, prefix, &children)
}

/// Adds the files and folders that are in a folder.
fn add_each(
    alloc: Global,
    later: &mut Vec<Later>,
    prefix: &str,
    children: &[Child],
) -> Result<(), AllocError>
    ensures { (top : Text) → IsPrefixBelow top prefix.now → OnOk result (KeepsBelow top later.old.items later.new.items) }
{
    for child in children {
        add_child(alloc, later, prefix, child)?;
    }
    Ok(())
}

/// Adds a file or a folder that is in a folder, unless nothing is read of it.
fn add_child(
    alloc: Global,
    later: &mut Vec<Later>,
    prefix: &str,
    child: &Child,
) -> Result<(), AllocError>
    ensures { (top : Text) → IsPrefixBelow top prefix.now → OnOk result (KeepsBelow top later.old.items later.new.items) }
{
    if child.is_folder {
        if !child.name.as_bytes().starts_with(b".") {
            let path = joined(alloc, prefix, &child.name, "/")?;
            later.push(Later {
                path,
                is_folder: true,
            })?;
        }
    } else if is_starlark_name(&child.name) {
        let path = joined(alloc, prefix, &child.name, "")?;
        later.push(Later {
            path,
            is_folder: false,
        })?;
    }
    Ok(())
}

/// Three texts as one.
fn joined(alloc: Global, begin: &str, middle: &str, end: &str) -> Result<String, AllocError>
    ensures { IfOk result (λ t. string_bytes t ≡ begin.now ++ (middle.now ++ end.now)) }
{
    let mut text = String::from_str(alloc, begin)?;
    text.push_str(middle)?;
    text.push_str(end)?;
    Ok(text)
}

/// Whether a file of this name is one of Starlark.
fn is_starlark_name(name: &str) -> bool
    ensures { result ≡ is_starlark_name name.now }
{
    is_whole_name(name) || has_ending(name)
}

/// Whether the name is one of those that build systems know.
fn is_whole_name(name: &str) -> bool
    ensures { result ≡ is_whole_name name.now }
{
    name == "BUILD" || name == "BUCK" || name == "WORKSPACE" || name == "Tiltfile"
}

/// Whether the name ends as those of Starlark do.
fn has_ending(name: &str) -> bool
    ensures { result ≡ has_ending name.now }
{
    let name = name.as_bytes();
    name.ends_with(b".bzl")
        || name.ends_with(b".star")
        || name.ends_with(b".sky")
        || name.ends_with(b".bazel")
}

/// What is in a folder, the last name first, as far as it can be read. Links are left out.
///
/// Fails if memory runs out.
fn children_of<R: Files + AllocGlobal + Clone + Drop>(
    rt: &R,
    folder: &str,
) -> Result<Listed, AllocError> {
    let alloc = rt.alloc();
    let mut children = Vec::new(alloc);
    let mut reason = None;
    match fs::read_dir(rt, folder) {
        Ok(entries) => {
            for entry in entries {
                match child_of(alloc, entry) {
                    Ok(Some(child)) => children.push(child)?,
                    Ok(None) => {}
                    Err(error) => reason = Some(reason_of(alloc, &error)?),
                }
            }
        }
        Err(error) => reason = Some(reason_of(alloc, &error)?),
    }
    children.sort_unstable();
    children.reverse();
    Ok(Listed { children, reason })
}

/// A file or a folder that is in a folder, unless it is something else.
fn child_of<R: Files + Drop>(
    alloc: Global,
    entry: io::Result<DirEntry<R>>,
) -> io::Result<Option<Child>> {
    let entry = entry?;
    let kind = entry.file_type()?;
    if !kind.is_dir() && !kind.is_file() {
        return Ok(None);
    }
    Ok(Some(Child {
        name: String::from_str(alloc, entry.file_name())?,
        is_folder: kind.is_dir(),
    }))
}
