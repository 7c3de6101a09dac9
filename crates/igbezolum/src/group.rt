// Groups, for C and Rust: thin over `groups` and `groups_printed`, in the numbers of docs/RULES.md, "Groups".
ghost use Rattle.std.specs.Prelude.{◌≡◌};
ghost use Rattle.texts.specs.GroupsReading.{groups_given};
ghost use Rattle.texts.specs.GroupsPrinted.{PrintsGroups};
ghost use Rattle.igbezolum.specs.GroupsLinked.{groups_numbers, GroupsFit, ReadsGroupsIn};

use rules::numbers::Answer;

// What a reading of groups returns, in numbers.
#[repr(C)]
#[derive(Clone, Copy)]
pub struct IgbGroups {
    pub answer: u32,
    pub place: u32,
    pub groups: u32,
    pub vars: u32,
    pub clauses: u32,
    pub count: u32,
}

fn groups_numbers(reading: rules::GroupsReading) -> IgbGroups
    requires { GroupsFit reading }
    ensures { result ≡ groups_numbers reading }
{
    let answer = reading.answer;
    IgbGroups {
        answer: answer.number(),
        place: answer.place() as u32,
        groups: reading.groups,
        vars: reading.vars,
        clauses: reading.clauses,
        count: reading.entries as u32,
    }
}

// Reads a file of groups into the entries and the sizes that are lent.
// Rules out: the number of groups for that of variables; the file's own clauses counted alone.
pub fn igb_read_groups(text: &[u8], entries: &mut [i32], sizes: &mut [u8]) -> IgbGroups
    ensures { ReadsGroupsIn (groups_given text.now entries.old sizes.old) result entries.new sizes.new }
{
    let reading = groups::read_groups(text, entries, sizes);
    groups_numbers(reading)
}

// The printed table of a file of groups, put at the start of the buffer that is lent; how many bytes it has.
// Rules out: one table for every text; a length that is not the table's.
pub fn igb_groups_table(text: &[u8], out: &mut [u8]) -> usize
    ensures { PrintsGroups text.now out.old result out.new }
{
    groups_printed::print(text, out)
}
