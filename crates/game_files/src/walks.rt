//! The files of games below a folder, links followed.
ghost use Rattle.std.specs.Prelude.{◌≡◌, [], IfOk, OnOk};
ghost use Rattle.game_files.specs.Sources.{AreGameFiles, AreGames};

use crate::flaws::{Flaw, Why};
use crate::looks::{Place, Seen, look, why_of};
use crate::names::{is_game_name, sort_names};
use std::alloc::AllocError;
use std::fs;
use std::io::ErrorKind;

/// A name that the walk has yet to look at, and how many of the walk's folders it stands in.
#[derive(Drop)]
struct Waiting {
    path: String,
    depth: usize,
}

/// What was found below a folder.
#[derive(Drop)]
pub(crate) struct Below {
    /// The files whose names end in `.sgf`, by their whole names.
    pub(crate) files: Vec<String>,
    /// What could not be looked at.
    pub(crate) flaws: Vec<Flaw>,
    /// How many names are not UTF-8.
    pub(crate) passed_over: u64,
}

/// A walk through all that is below a folder: the names that it has yet to look at, and what it
/// found.
#[derive(Drop)]
struct Walk<'a> {
    rt: &'a HostRuntime,
    waiting: Vec<Waiting>,
    /// The identities of the folders that the next name stands in, from the outermost.
    inside: Vec<Place>,
    below: Below,
}

impl Walk<'_> {
    /// Enters the folder `path`, whose identity is `place`: the names in it are to be looked at
    /// next. Does nothing if the folder stands in itself, by a link back to a folder that was
    /// entered. If it can't be read, that is noted in `below.flaws`.
    fn enter(&mut self, path: String, place: Place) -> Result<(), AllocError>
        ensures { self.new.below.files ≡ self.old.below.files }
    {
        if self.inside.contains(&place) {
            return Ok(());
        }
        self.inside.push(place)?;
        match fs::read_dir(self.rt, path.as_str()) {
            Ok(entries) => self.wait_for(entries, path),
            Err(error) => self.fail(path, why_of(&error)?),
        }
    }

    /// Adds the names in `folder`, which `entries` reads, to those that are yet to be looked at.
    /// Names that are not UTF-8 are only counted. If reading the folder fails, that is noted in
    /// `below.flaws`.
    fn wait_for(&mut self, entries: fs::ReadDir, folder: String) -> Result<(), AllocError>
        ensures { self.new.below.files ≡ self.old.below.files }
    {
        let depth = self.inside.len();
        for entry in entries {
            match entry {
                Ok(entry) => {
                    let path = String::from_str(self.rt.alloc(), entry.path().as_str())?;
                    self.waiting.push(Waiting { path, depth })?;
                }
                Err(error) if error.kind() == ErrorKind::InvalidFilename => {
                    self.below.passed_over = self.below.passed_over.saturating_add(1);
                }
                Err(error) => return self.fail(folder, why_of(&error)?),
            }
        }
        Ok(())
    }

    /// Notes in `below.flaws` that `name` could not be looked at. A name that leads nowhere (no
    /// such file, or a circle of links) is noted only if it ends in `.sgf`.
    fn fail(&mut self, name: String, why: Why) -> Result<(), AllocError>
        ensures { self.new.below.files ≡ self.old.below.files }
    {
        let leads_nowhere = matches!(why, Why::Missing | Why::Circle);
        if !leads_nowhere || is_game_name(name.as_str()) {
            self.below.flaws.push(Flaw { name, why })?;
        }
        Ok(())
    }

    /// Takes one name that is yet to be looked at, and looks at it. Returns whether there was one.
    fn step(&mut self) -> Result<bool, AllocError>
        ensures { OnOk result (AreGames self.old.below.files.items
            → AreGames self.new.below.files.items) }
    {
        let Some(Waiting { path, depth }) = self.waiting.pop() else {
            return Ok(false);
        };
        self.inside.truncate(depth);
        match look(self.rt, path.as_str())? {
            Seen::Folder(place) => self.enter(path, place)?,
            Seen::File => {
                if is_game_name(path.as_str()) {
                    self.below.files.push(path)?;
                }
            }
            Seen::Other => {}
            Seen::Unseen(why) => self.fail(path, why)?,
        }
        Ok(true)
    }
}

/// Makes a walk that begins at the folder `folder`, of which nothing was looked at yet.
fn walk_at<'a>(rt: &'a HostRuntime, folder: &str) -> Result<Walk<'a>, AllocError>
    ensures { IfOk result (λ walk. walk.below.files.items ≡ []) }
{
    let mut waiting = Vec::new(rt.alloc());
    waiting.push(Waiting {
        path: String::from_str(rt.alloc(), folder)?,
        depth: 0,
    })?;
    Ok(Walk {
        rt,
        waiting,
        inside: Vec::new(rt.alloc()),
        below: Below {
            files: Vec::new(rt.alloc()),
            flaws: Vec::new(rt.alloc()),
            passed_over: 0,
        },
    })
}

/// Returns what is below the folder of this name: the files whose names end in `.sgf`, in the order
/// of their whole names, each once; what could not be looked at; and how many names are not UTF-8.
pub(crate) fn walk_below(rt: &HostRuntime, folder: &str) -> Result<Below, AllocError>
    ensures { IfOk result (λ below. AreGameFiles below.files.items) }
{
    let mut walk = walk_at(rt, folder)?;
    for _ in 0..u64::MAX {
        if !walk.step()? {
            break;
        }
    }
    let Walk {
        rt: _,
        waiting: _,
        inside: _,
        mut below,
    } = walk;
    sort_names(&mut below.files);
    below.flaws.sort_unstable_by(|a, b| a.name.cmp(&b.name));
    Ok(below)
}
