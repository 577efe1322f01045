// A stop of all files.
ghost use Rattle.std.specs.List.{All};
ghost use Rattle.flow_memory_disk.specs.Stopping.{CanStop, AllStopped};

use crate::choice::Choice;
use crate::stored::StoredFile;

/// Leaves each file as a stop does.
pub(crate) fn stop_all(files: &mut [StoredFile], choice: Choice<'_>)
    requires { All (λ file. CanStop file choice) files.old }
    ensures { AllStopped choice.entry files.old files.new }
{
    for stored in files.iter_mut() {
        stored.stop(choice);
    }
}
