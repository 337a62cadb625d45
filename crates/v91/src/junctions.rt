// The command settings: the settings of junctions in a file.
use crate::cp_file::load_file;
use console::{Ends, Failure};
use settings_file::Asked;

// Does with the settings file that word 1 names what the words after it ask for.
pub(crate) fn settings(e: Ends<'_>, words: &[u8]) -> Result<(), Failure> {
    let name = parts::nth_part(words, 0, 1);
    match settings_file::asked_in(e, words)? {
        Asked::Put(junction) => {
            let cp = load_file(e, parts::nth_part(words, 0, 4))?;
            settings_file::put(e, name, junction, cp.record)
        }
        Asked::Run(command) => settings_file::run(e, name, command),
    }
}
