// How many entries differ in any field before and after.
ghost use Rattle.std.specs.Prelude.{◌≡◌, length};
ghost use Rattle.walk.specs.Labels.{entry_at};
ghost use Rattle.walk.specs.Counting.{differing};
ghost use Rattle.search.specs.Lent.{labels_in};
ghost use Rattle.search.specs.steps.Tables.{Sized};
ghost use Rattle.edit.specs.steps.KeptLabels.{kept_at};

use search::{Label, Labels};

pub fn count_differing(kept: &[Label], labels: Labels<'_>) -> usize
    requires { Sized (length kept.now) (labels_in labels) }
    ensures { result ≡ differing (kept_at kept.now) (entry_at (labels_in labels.entry)) (length kept.now) }
{
    kept.iter()
        .enumerate()
        .filter(|(entry, label)| !label.same_as(labels.at(*entry)))
        .count()
}
