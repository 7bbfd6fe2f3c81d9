//! Paths of any number of names, walked.

ghost use Rattle.std.specs.Prelude.{◌≤◌, IfOk, length, map};
ghost use Rattle.p9_client.specs.Files.{GoesOn, WalksPath, WalksPiece};

use crate::file_error::FileError;
use crate::session::Session;
use p9_wire::{MAXWELEM, Names, Stream};
use std::alloc::Allocator;

impl<S: Stream + Drop, A: Allocator + Copy> Session<S, A> {
    /// Makes `newfid` for the file to which a path of any number of names leads from `fid`, by
    /// walks of at most sixteen names. The two fids are not the same. After an error that the
    /// session survives, `newfid` is no fid.
    ///
    /// # Errors
    ///
    /// [`FileError::Session`], and [`FileError::NotWalked`] where the path leads nowhere.
    pub fn walk_path(&mut self, fid: u32, newfid: u32, path: &[&str]) -> Result<(), FileError>
        ensures goes_on { GoesOn self.old self.new result }
        ensures walked { IfOk result (λ nothing. WalksPath S.remaining S.contents fid newfid
            (map (λ name. name.now) path.now) self.old self.new) }
    {
        let mut walked = path.len().min(MAXWELEM);
        self.walk_piece(fid, newfid, &path[..walked])?;
        while walked < path.len() {
            let end = path.len().min(walked + MAXWELEM);
            match self.walk_piece(newfid, newfid, &path[walked..end]) {
                Ok(()) => walked = end,
                Err(error) => {
                    let _ = self.clunk(newfid);
                    return Err(error);
                }
            }
        }
        Ok(())
    }

    // One walk, by at most sixteen names.
    fn walk_piece(&mut self, fid: u32, newfid: u32, piece: &[&str]) -> Result<(), FileError>
        requires { length piece.now ≤ 16 }
        ensures goes_on { GoesOn self.old self.new result }
        ensures walked { IfOk result (λ nothing. WalksPiece S.remaining S.contents fid newfid
            (map (λ name. name.now) piece.now) self.old self.new) }
    {
        let mut names = Names::new();
        for name in piece {
            names.push(name);
        }
        let qids = self.walk(fid, newfid, names)?;
        if qids.len() < piece.len() {
            return Err(FileError::NotWalked);
        }
        Ok(())
    }
}
