// The robots' library as C and Rust programs link it: each function is that of `robot` by the same name, with its clauses, exported to C. A slice comes as a
// pointer and a count. What each promises stands in words in library/slushferret.h; .ci/statements holds this file to `robot`.
#![tactic(auto)]

ghost use Rattle.std.specs.Prelude.{◌≡◌, List, ℕ};
ghost use Rattle.robot.specs.Library.{gives, gives_wrote, gives_ran, check_scheme, check_matrix, convert_scheme_bytes, convert_matrix_bytes, hold_bytes, release_bytes, forward_bytes, back_bytes, run_bytes, request_bytes, version};

#[unsafe(no_mangle)]
pub extern "C" fn slushferret_version() -> u32
    ensures { result ≡ version }
{
    robot::slushferret_version()
}

#[unsafe(no_mangle)]
pub extern "C" fn slushferret_check_scheme(scheme: &[u8], report: &mut [usize]) -> u8
    ensures { ◌≡◌ {A = ℕ × List ℕ} (result, report.new) (gives report.old (check_scheme scheme.now)) }
{
    robot::slushferret_check_scheme(scheme, report)
}

#[unsafe(no_mangle)]
pub extern "C" fn slushferret_check_matrix(scheme: &[u8], matrix: &[u8], report: &mut [usize]) -> u8
    ensures { ◌≡◌ {A = ℕ × List ℕ} (result, report.new) (gives report.old (check_matrix scheme.now matrix.now)) }
{
    robot::slushferret_check_matrix(scheme, matrix, report)
}

#[unsafe(no_mangle)]
pub extern "C" fn slushferret_run(
    scheme: &[u8],
    matrix: &[u8],
    requests: &[u8],
    answers: &mut [u8],
    out: &mut [u8],
    report: &mut [usize],
) -> u8
    ensures { ◌≡◌ {A = ℕ × List ℕ × List ℕ × List ℕ} (result, answers.new, out.new, report.new) (gives_ran report.old (run_bytes scheme.now matrix.now requests.now answers.old out.old)) }
{
    robot::slushferret_run(scheme, matrix, requests, answers, out, report)
}

#[unsafe(no_mangle)]
pub extern "C" fn slushferret_convert_scheme(
    scheme: &[u8],
    out: &mut [u8],
    report: &mut [usize],
) -> u8
    ensures { ◌≡◌ {A = ℕ × List ℕ × List ℕ} (result, out.new, report.new) (gives_wrote report.old (convert_scheme_bytes scheme.now out.old)) }
{
    robot::slushferret_convert_scheme(scheme, out, report)
}

#[unsafe(no_mangle)]
pub extern "C" fn slushferret_convert_matrix(
    scheme: &[u8],
    matrix: &[u8],
    out: &mut [u8],
    report: &mut [usize],
) -> u8
    ensures { ◌≡◌ {A = ℕ × List ℕ × List ℕ} (result, out.new, report.new) (gives_wrote report.old (convert_matrix_bytes scheme.now matrix.now out.old)) }
{
    robot::slushferret_convert_matrix(scheme, matrix, out, report)
}

#[unsafe(no_mangle)]
pub extern "C" fn slushferret_hold(
    scheme: &[u8],
    matrix: &[u8],
    id: u16,
    out: &mut [u8],
    report: &mut [usize],
) -> u8
    ensures { ◌≡◌ {A = ℕ × List ℕ × List ℕ} (result, out.new, report.new) (gives_wrote report.old (hold_bytes scheme.now matrix.now id out.old)) }
{
    robot::slushferret_hold(scheme, matrix, id, out, report)
}

#[unsafe(no_mangle)]
pub extern "C" fn slushferret_release(
    scheme: &[u8],
    matrix: &[u8],
    id: u16,
    out: &mut [u8],
    report: &mut [usize],
) -> u8
    ensures { ◌≡◌ {A = ℕ × List ℕ × List ℕ} (result, out.new, report.new) (gives_wrote report.old (release_bytes scheme.now matrix.now id out.old)) }
{
    robot::slushferret_release(scheme, matrix, id, out, report)
}

#[unsafe(no_mangle)]
pub extern "C" fn slushferret_forward(
    scheme: &[u8],
    old: &[u8],
    out: &mut [u8],
    report: &mut [usize],
) -> u8
    ensures { ◌≡◌ {A = ℕ × List ℕ × List ℕ} (result, out.new, report.new) (gives_wrote report.old (forward_bytes scheme.now old.now out.old)) }
{
    robot::slushferret_forward(scheme, old, out, report)
}

#[unsafe(no_mangle)]
pub extern "C" fn slushferret_back(
    scheme: &[u8],
    matrix: &[u8],
    out: &mut [u8],
    report: &mut [usize],
) -> u8
    ensures { ◌≡◌ {A = ℕ × List ℕ × List ℕ} (result, out.new, report.new) (gives_wrote report.old (back_bytes scheme.now matrix.now out.old)) }
{
    robot::slushferret_back(scheme, matrix, out, report)
}

#[unsafe(no_mangle)]
pub extern "C" fn slushferret_write_request(
    command: u8,
    ids: &[u16],
    out: &mut [u8],
    at: usize,
    report: &mut [usize],
) -> u8
    ensures { ◌≡◌ {A = ℕ × List ℕ × List ℕ} (result, out.new, report.new) (gives_wrote report.old (request_bytes out.old at command ids.now)) }
{
    robot::slushferret_write_request(command, ids, out, at, report)
}
