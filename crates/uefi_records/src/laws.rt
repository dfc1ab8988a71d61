//! Laws of the definitions. Each holds for all their values, and costs nothing when it runs.

ghost use Rattle.uefi_records.specs.Laws.{OneTime, TimesReadBack, EqualFiles, ReadsBack, WrittenAlone};
ghost use Rattle.uefi_records.specs.rows.Records.{RowsHold};

/// States that at most one time is in bytes: sixteen bytes determine all its fields.
pub fn one_time()
    ensures { OneTime }
{}

/// Times and their bytes determine each other: a time reads back from its bytes, and sixteen bytes
/// are those of the time that is read from them.
#[tactic(auto, using(crate::proofs::time::ReadBack::times_read_back))]
pub fn times_read_back()
    ensures { TimesReadBack }
{}

/// States that file information records are equal exactly if their accessors return the same.
#[tactic(auto, using(crate::proofs::file::EqualFiles::equal_files))]
pub fn equal_files()
    ensures { EqualFiles }
{}

/// States that a record that was written reads back, with the size, the fields and the name that
/// were written: for every number of written bytes that covers its name, in every buffer that it
/// fits, whatever the buffer holds after it.
#[tactic(auto, using(crate::proofs::file::RecordLaws::reads_back))]
pub fn reads_back()
    ensures { ReadsBack }
{}

/// States that only written bytes decide: two buffers of one length that agree on the written bytes
/// get one verdict, and if a record is accepted, one size, the same fields and the same name.
#[tactic(auto, using(crate::proofs::file::RecordLaws::written_alone))]
pub fn written_alone()
    ensures { WrittenAlone }
{}

/// States that the definitions hold on worked examples: the encodings, faults and sizes of some
/// times and records, and the numbers of the flags. Each example is a theorem.
#[tactic(auto, using(crate::proofs::Rows::rows_hold))]
pub fn worked_rows()
    ensures { RowsHold }
{}
