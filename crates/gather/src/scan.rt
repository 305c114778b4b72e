// Reading a whole file before memory is asked for: its fault, or what stands before its top node.
ghost use Rattle.format.specs.Files.{Said};
ghost use Rattle.gather.specs.Trees.{Says, Heads};
ghost use Rattle.gather.specs.Readings.{Scans};

use proof::counts::count;
use proof::fault::Fault;
use proof::head::Head;
use proof::walk::Walk;

// What stands before the top node of a file that has no fault.
pub fn head<'a>(file: &'a [u8]) -> Result<Head<'a>, Fault>
    ensures { Heads file.now result }
{
    scan(file)?;
    top(file)
}

// Whether the file has a fault.
pub(crate) fn scan(file: &[u8]) -> Result<(), Fault>
    ensures { Scans file.now result }
{
    let _ = count(file)?;
    Ok(())
}

fn top<'a>(file: &'a [u8]) -> Result<Head<'a>, Fault>
    requires { (s : Said) × Says file.now s }
    ensures { Heads file.now result }
{
    let walk = Walk::new(file)?;
    Ok(walk.head())
}
