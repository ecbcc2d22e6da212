// The library's two functions in the C ABI: include/musselpath.h declares them. A crate that others use is no static library, so they stand apart.
#![tactic(auto)]

ghost use Rattle.std.specs.Prelude.{◌≡◌};
ghost use Rattle.words.specs.Buffer.{placed, fitted};
ghost use Rattle.report.specs.Report.{answer_text};
ghost use Rattle.musselpath.specs.Boundary.{run_answered, run_left};

// Puts the report of a text or the line of its refusal at the front of out, and answers how many bytes it has; 0, and out is unchanged, where out is too short.
#[unsafe(no_mangle)]
pub extern "C" fn musselpath_report(text: &[u8], out: &mut [u8]) -> u64
    ensures { (result ≡ fitted (answer_text text.now) out.old) × (out.new ≡ placed (answer_text text.now) out.old) }
{
    musselpath::musselpath_report(text, out)
}

// Puts the completion instants of the full run at the front of out, one for each row, and answers 0; or the refusal with its place, and out is unchanged.
#[unsafe(no_mangle)]
pub extern "C" fn musselpath_full_run(text: &[u8], ticks: u64, out: &mut [u64]) -> u64
    ensures { (result ≡ run_answered text.now ticks out.old) × (out.new ≡ run_left text.now ticks out.old) }
{
    musselpath::musselpath_full_run(text, ticks, out)
}
