use crate::table::each_row;
use std::alloc::Global;
use std::process::ExitCode;
use std::rt::{Env, Files};
use std::test::Fail;
use std::{env, fs};
use test_support::Refusing;

/// Answers the rows of each file that the arguments name, and prints each row whose answer isn't as
/// wanted. Returns failure if there is one, or if a file has no row.
///
/// # Errors
///
/// A failure if a file can't be read, if the rows can't be printed, or if memory runs out.
pub fn answered<R: Files + Env + Print + Eprint + AllocGlobal, F>(
    rt: &R,
    answer: F,
) -> Result<ExitCode, Fail>
where
    F: Fn(&Refusing<Global>, &str, &str) -> Option<String>,
    requires { F.IsAlwaysCallable answer }
{
    let files = env::args(rt)?.skip(1).collect::<Vec<String>>(rt.alloc())?;
    let mut is_as_wanted = true;
    for file in files {
        let text = fs::read_to_string(rt, file.as_str())?;
        let judged = each_row(rt.alloc(), file.as_str(), text.as_str(), &answer)?;
        print!(rt; "{}", judged.faults)?;
        eprintln!(rt;
            "{file}: {} rows, {} of them not as wanted",
            judged.rows, judged.failed
        )?;
        is_as_wanted = is_as_wanted && judged.failed == 0 && judged.rows != 0;
    }
    Ok(if is_as_wanted {
        ExitCode::SUCCESS
    } else {
        ExitCode::FAILURE
    })
}
