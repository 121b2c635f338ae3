// The text of version 2 of a structures file.
ghost use Rattle.vtl_top.specs.Answered.{Takes};
ghost use Rattle.vtl_top.specs.Migrated.{migrate_step};
ghost use Rattle.vtl_top.specs.RunView.{migration_view};

use crate::run::read_structures_file;
use crate::words::Migration;
use std::alloc::Global;
use vtl_csv::write_structures;
use vtl_files::Files;
use vtl_status::Status;

/// The text of version 2 that declares what a structures file declares, and the profile that a run over it has; or the
/// first refusal in the order file, structures; or, at any place, that memory ran out.
pub fn prepare_migration<F: Files>(
    alloc: Global,
    files: &mut F,
    migration: &Migration<'_>,
) -> Result<Vec<u8>, Status>
    ensures { Takes F.Files files.old files.new (migrate_step (migration_view migration.now)) (λ text. text.items) result }
{
    let declared = read_structures_file(alloc, files, migration.structures)?;
    let profile = migration.chosen.profile(declared.profile);
    Ok(write_structures(alloc, &declared.structures, &profile)?)
}
