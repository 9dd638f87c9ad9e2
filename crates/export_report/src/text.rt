// The report on a sheet: each function answers the report's length, and writes it where the buffer holds it.
ghost use Rattle.std.specs.Prelude.{◌≡◌};
ghost use Rattle.model.specs.Sheet.{verdict_of};
ghost use Rattle.model.specs.Run.{finished};
ghost use Rattle.families_figure.specs.Figure.{dash};
ghost use Rattle.report.specs.Report.{report_for};
ghost use Rattle.report.specs.Inner.Text.{ended_text, Fitted};
ghost use Rattle.run_state.specs.Meaning.{ending_of};
ghost use Rattle.families_count.specs.Told.{figure_of};
ghost use Rattle.export_report.specs.Inner.Inner.{Listed, Dashed};

use run_state::Ending;

// A run whose families aren't counted.
fn stop_report(e: Ending, list: &[u8], n: usize, out: &mut [u8]) -> usize
    requires { Listed (ending_of e) n list.now }
    ensures { Fitted out.old (ended_text (ending_of e) dash n list.now) out.new result }
{
    match e {
        Ending::Spent(plans, nodes) => report::spent(plans, nodes, list, n, out),
        Ending::Full(plans, nodes) => report::full(plans, nodes, list, n, out),
        Ending::Finished(plans, nodes) => report::uncounted(plans, nodes, list, n, out),
    }
}

// A finished run, with the number of families or a dash.
fn finished_report(
    figure: Option<usize>,
    plans: usize,
    nodes: usize,
    list: &[u8],
    n: usize,
    out: &mut [u8],
) -> usize
    requires { Listed (finished plans nodes) n list.now }
    ensures { Fitted out.old (ended_text (finished plans nodes) (figure_of figure) n list.now)
        out.new result }
{
    match figure {
        Some(families) => report::finished(plans, nodes, families, list, n, out),
        None => report::uncounted(plans, nodes, list, n, out),
    }
}

// A finished run is taken apart first; the two others are a stop, whose figure is the dash.
fn ending_report(figure: Option<usize>, e: Ending, list: &[u8], n: usize, out: &mut [u8]) -> usize
    requires { Listed (ending_of e) n list.now }
    ensures { Dashed (ending_of e) (figure_of figure) → Fitted out.old
        (ended_text (ending_of e) (figure_of figure) n list.now) out.new result }
{
    let Ending::Finished(plans, nodes) = e else {
        return stop_report(e, list, n, out);
    };
    finished_report(figure, plans, nodes, list, n, out)
}

// The report on a sheet.
pub fn sheet_report(sheet: &[u8], out: &mut [u8]) -> usize
    ensures { Fitted out.old (report_for (verdict_of sheet.now) sheet.now) out.new result }
{
    let mut list = families_count::plan_room();
    let run = families_count::report_run(sheet, report::REPORT_LIMIT, &mut list);
    let n = run.variables;
    let used = report::REPORT_PLANS * n;
    match run.answer {
        Ok(e) => ending_report(run.figure, e, &list[..used], n, out),
        Err(refusal) => report::refused(usize::from(refusal.question.number()), refusal.item, out),
    }
}
