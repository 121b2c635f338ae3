// What is said of bytes is said where `held` and `written` are told, each for itself; causes by counts, what is closed
// and which path is named hold for every object. So one contract fits files in memory and on the disk.
//
// `opened` is a meaning of its own: where `held` is not told, nothing else could say that `read` gives 0 where
// nothing is open.
//
// `place` and `mark` bind a fault to a name: a body cannot bring on a fault elsewhere and answer for this file.
//
// A call out of turn fails and is counted (`misuses`), where a condition could have stood: every adapter and every
// caller is total.
ghost use Rattle.std.specs.Prelude.{◌≡◌, ◌≤◌, ◌<◌, ℕ, List, Bool, true, false, Option, None, Ok, length, is_ok, IsErr, OnOk, OnErr, IfOk, IfSome, string_bytes, []};
ghost use Rattle.std.specs.Result.{result_unwrap_or};
ghost use Rattle.vtl_files.specs.Mem.{Follows, MovesFew, Plan, ReadFollows};
ghost use Rattle.vtl_files.specs.Outside.{Rose, Opens, ReadsFront, Creates, WritesFront, LeavesNothing, CountsAbsence, CountsMisuse};
ghost use Rattle.vtl_files.specs.declared.plan.Method.TheVariants as method;

use crate::failed::Failed;

/// Files that are read, or created and written, one at a time.
///
/// Some meanings are lists that an object may reveal or not; no call changes whether it does.
pub trait Files {
    /// The files that can be read, where they are revealed: names with bytes. No call changes them.
    ghost held: { Self → Option (List (List ℕ × List ℕ)) };

    /// The files that were created, where they are revealed: names with bytes, in order of creating.
    ghost written: { Self → Option (List (List ℕ × List ℕ)) };

    /// How often a call has failed. It never falls.
    ghost faults: { Self → ℕ };

    /// How often a file was not found. It never falls.
    ghost absences: { Self → ℕ };

    /// How often a call came when `creating` was not as the call requires. It never falls.
    ghost misuses: { Self → ℕ };

    /// Whether a file is being created: between a `create` and a `finish` that answer Ok.
    ghost creating: { Self → Bool };

    /// The name that was last handed to `open` or `create`.
    ghost place: { Self → List ℕ };

    /// The count of faults before that call.
    ghost mark: { Self → ℕ };

    /// Whether a file is opened for reading: since an `open` that answered true, until the next
    /// `open` or `create`.
    ghost opened: { Self → Bool };

    /// What is still to be read, where the held files are revealed.
    ghost left: { Self → Option (List ℕ) };

    /// How calls are planned, where that is revealed: which of them fail, and how many bytes one may move.
    ghost plan: { Self → Option Plan } = { λ _. None };

    /// Opens the file of this name for reading, at its start. False: there is none.
    ///
    /// # Errors
    ///
    /// The file could not be opened, for another reason than that there is none.
    fn open(&mut self, name: String) -> Result<bool, Failed>
        ensures held { held self.new ≡ held self.old }
        ensures written { written self.new ≡ written self.old }
        ensures faults { faults self.old ≤ faults self.new }
        ensures failed { OnErr result (Rose (faults self.old) (faults self.new)) }
        ensures absences { absences self.old ≤ absences self.new }
        ensures absent { CountsAbsence result (absences self.old) (absences self.new) }
        ensures misuses { misuses self.new ≡ misuses self.old }
        ensures creating { creating self.new ≡ creating self.old }
        ensures place { place self.new ≡ string_bytes name }
        ensures mark { mark self.new ≡ faults self.old }
        ensures opened { opened self.new ≡ result_unwrap_or result false }
        ensures left { Opens (held self.old) (string_bytes name) result (left self.new) }
        ensures plan { Follows method.Open (plan self.old) (plan self.new) result };

    /// Puts the next bytes of the opened file at the front of `buf`, and gives how many. None: `buf` is
    /// empty, the file's end is reached, or no file is opened.
    ///
    /// # Errors
    ///
    /// The opened file could not be read.
    fn read(&mut self, buf: &mut [u8]) -> Result<usize, Failed>
        ensures held { held self.new ≡ held self.old }
        ensures written { written self.new ≡ written self.old }
        ensures faults { faults self.old ≤ faults self.new }
        ensures failed { OnErr result (Rose (faults self.old) (faults self.new)) }
        ensures absences { absences self.new ≡ absences self.old }
        ensures misuses { misuses self.new ≡ misuses self.old }
        ensures creating { creating self.new ≡ creating self.old }
        ensures place { place self.new ≡ place self.old }
        ensures mark { mark self.new ≡ mark self.old }
        ensures opened { opened self.new ≡ opened self.old }
        ensures not_opened { opened self.old ≡ false → result ≡ Ok 0 }
        ensures bound { IfOk result (λ count. count ≤ length buf.new) }
        ensures left { ReadsFront (left self.old) (left self.new) buf.new result }
        ensures end { IfOk result (λ count. count ≡ 0 → 0 < length buf.new → IfSome (left self.old) (λ rest. rest ≡ [])) }
        ensures plan { ReadFollows (opened self.old) (plan self.old) (plan self.new) result }
        ensures few { MovesFew (plan self.old) result };

    /// Creates an empty file of this name, to be written. The opened file is closed.
    ///
    /// # Errors
    ///
    /// The file could not be created, or another one is still being created.
    fn create(&mut self, name: String) -> Result<(), Failed>
        ensures held { held self.new ≡ held self.old }
        ensures written { Creates (written self.old) (written self.new) (string_bytes name) result }
        ensures faults { faults self.old ≤ faults self.new }
        ensures failed { OnErr result (Rose (faults self.old) (faults self.new)) }
        ensures absences { absences self.new ≡ absences self.old }
        ensures misuses { misuses self.old ≤ misuses self.new }
        ensures misused { CountsMisuse false (creating self.old) (misuses self.old) (misuses self.new) }
        ensures refused { creating self.old ≡ true → IsErr result }
        ensures creating { OnOk result (creating self.new ≡ true) }
        ensures not_created { OnErr result (creating self.new ≡ creating self.old) }
        ensures place { place self.new ≡ string_bytes name }
        ensures mark { mark self.new ≡ faults self.old }
        ensures opened { opened self.new ≡ false }
        ensures left { LeavesNothing (held self.old) (left self.new) }
        ensures plan { Follows method.Create (plan self.old) (plan self.new) result };

    /// Appends some first bytes of `piece` to the file that is being created, and gives how many.
    ///
    /// # Errors
    ///
    /// The file could not be written, or none is being created.
    fn write(&mut self, piece: &[u8]) -> Result<usize, Failed>
        ensures held { held self.new ≡ held self.old }
        ensures written { WritesFront (written self.old) (written self.new) piece.now result }
        ensures faults { faults self.old ≤ faults self.new }
        ensures failed { OnErr result (Rose (faults self.old) (faults self.new)) }
        ensures absences { absences self.new ≡ absences self.old }
        ensures misuses { misuses self.old ≤ misuses self.new }
        ensures misused { CountsMisuse true (creating self.old) (misuses self.old) (misuses self.new) }
        ensures refused { creating self.old ≡ false → IsErr result }
        ensures creating { creating self.new ≡ creating self.old }
        ensures place { place self.new ≡ place self.old }
        ensures mark { mark self.new ≡ mark self.old }
        ensures opened { opened self.new ≡ opened self.old }
        ensures left { left self.new ≡ left self.old }
        ensures bound { IfOk result (λ count. count ≤ length piece.now) }
        ensures stuck { IfOk result (λ count. count ≡ 0 → 0 < length piece.now → Rose (faults self.old) (faults self.new)) }
        ensures plan { Follows method.Write (plan self.old) (plan self.new) result }
        ensures few { MovesFew (plan self.old) result };

    /// Ends the file that is being created.
    ///
    /// # Errors
    ///
    /// The file could not be finished, or none is being created.
    fn finish(&mut self) -> Result<(), Failed>
        ensures held { held self.new ≡ held self.old }
        ensures written { written self.new ≡ written self.old }
        ensures faults { faults self.old ≤ faults self.new }
        ensures failed { OnErr result (Rose (faults self.old) (faults self.new)) }
        ensures absences { absences self.new ≡ absences self.old }
        ensures misuses { misuses self.old ≤ misuses self.new }
        ensures misused { CountsMisuse true (creating self.old) (misuses self.old) (misuses self.new) }
        ensures refused { creating self.old ≡ false → IsErr result }
        ensures creating { OnOk result (creating self.new ≡ false) }
        ensures not_finished { OnErr result (creating self.new ≡ creating self.old) }
        ensures place { place self.new ≡ place self.old }
        ensures mark { mark self.new ≡ mark self.old }
        ensures opened { opened self.new ≡ opened self.old }
        ensures left { left self.new ≡ left self.old }
        ensures plan { Follows method.Finish (plan self.old) (plan self.new) result };
}
