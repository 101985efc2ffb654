// "two ready jobs have the same release number, or one not below that count"
ghost use Rattle.std.specs.Prelude.{◌≡◌, ◌<◌, ◌^◌};
ghost use Rattle.table.specs.Limits.{most_tasks};
ghost use Rattle.torn.specs.Torn.{same_number, torn_numbers};

use machine::Kept;

// "two ready jobs have the same release number": a ready job below this one. By the range: asked of the set's members,
// with a test of the place, an event on 834 words with sixteen ready takes 3.6 % more instructions.
fn same_number(kept: &Kept, task: u32) -> bool
    requires { task < most_tasks }
    ensures { result ≡ same_number kept.now task }
{
    let own = kept.rows[task as usize].number;
    (0..task).any(|j| sets::has(kept.ready, j) && kept.rows[j as usize].number == own)
}

pub(crate) fn some_number_wrong(kept: &Kept) -> bool
    requires { kept.now.ready < 2 ^ most_tasks }
    ensures { result ≡ torn_numbers kept.now }
{
    sets::members(kept.ready).any(|i| same_number(kept, i)
        || kept.count <= kept.rows[i as usize].number)
}
