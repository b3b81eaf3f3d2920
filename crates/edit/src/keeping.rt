// The labels from before an edit, kept while the buffers are written.
ghost use Rattle.std.specs.Prelude.{◌≡◌, length};
ghost use Rattle.search.specs.Lent.{labels_in};
ghost use Rattle.search.specs.steps.Tables.{Sized};
ghost use Rattle.edit.specs.steps.KeptLabels.{KeptWhole};

use search::{Label, Labels};

pub fn keep_table(labels: Labels<'_>, kept: &mut [Label])
    requires { Sized (length kept.old) (labels_in labels) }
    ensures { KeptWhole (length kept.old) kept.new (labels_in labels.entry) }
{
    for (entry, slot) in kept.iter_mut().enumerate() {
        *slot = labels.at(entry);
    }
}
