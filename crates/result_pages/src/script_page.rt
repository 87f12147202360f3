//! The last part of the page's script: headlines, choices, sections and the foot.

/// The page as a whole, and its start.
pub(crate) const SCRIPT_PAGE: &[u8] = br##"
// ---- Sections

const gridOfFigures = figures => html('div', { class: 'grid' }, figures);
const aside = text => paragraph('none', text);

// What is asked for in the first year and in the last, and who makes most of it.
function demandFigure(scope) {
  const ends = [...new Set([firstYear, lastYear])], heads = ends.flatMap(year => [year, ['mostly from', 'w']]);
  const way = ({ fuel, name, share: part }, i) =>
    html('span', { class: 'way' }, `${i ? ' and' : ''} its ${fuel}: ${name} ${part}`);
  const cells = (fuel, asked) => ends.map(year => {
    const [first, ...rest] = makersOf(scope, fuel, year);
    return [amount(short(asked[years.indexOf(year)])),
      words(first ? [first.name + ' ', html('b', null, first.share), rest.map(way)] : '\u2013')];
  });
  const rows = names.FUEL.map(fuel => [fuel, demandOf(scope, fuel)]).filter(([, asked]) => isSome(asked))
    .map(([fuel, asked]) => rowOf(fuel, cells(fuel, asked)));
  return rows.length ? tellingFigure('What is asked for, and who makes most of it',
    'energy of a year, in units of the data file', ['', ...heads], rows) : null;
}

const MOST_LIMITS = 10;

function limitFigure(scope) {
  const all = limitsOf(scope), shown = all.slice(0, Number(state.most) ? MOST_LIMITS : all.length);
  const rows = shown.map(({ text, times, bounds, percent, unit }) => rowOf(text, [words(times.length && firstOf(times)),
    amount(bounds.length && shortRange(bounds)), amount(bounds.length && short(percent)), amount(short(unit))]));
  const note = !all.length ? 'No limit on capacity, activity or emissions raises the cost.'
    : all.length > shown.length ? `${all.length - shown.length} more limits have a price.` : null;
  return tellingFigure('Which limits cost most',
    'discounted money that looser limits save at most, in all the years that are told',
    [['Limit', 'w'], ['in', 'w'], 'at', '1\u00a0% looser', 'a unit looser'], rows, note);
}

// Costs, emissions and limits of the regions of a scope.
function costFigures(scope) {
  const emissions = names.EMISSION.map(emission => [emission, figureOf(emissionChart(scope, emission))]);
  const without = emissions.filter(([, figure]) => !figure).map(([emission]) => emission).join(', ');
  const told = without && (isChange() ? 'Emissions without a change: ' : 'No emissions of ') + without + '.';
  return present([!isChange() && demandFigure(scope), figureOf(costChart(scope)), figureOf(technologyCostChart(scope)),
    ...emissions.map(([, figure]) => figure), !isChange() && limitFigure(scope), told && aside(told)]);
}

// Everything that is shown of a region, or of all together.
function scopeSection(scope, title) {
  const costs = gridOfFigures(costFigures(scope)), figuresOf = charts => present(charts.map(figureOf));
  const fuels = (state.fuel ? [state.fuel] : fuelsOf(scope)).map(fuel => [fuel, figuresOf(fuelCharts(scope, fuel))]);
  const idle = state.fuel ? [] : figuresOf(IDLE_CHARTS.map(spec => tableChart(spec, scope, '')));
  const sections = [...fuels, ['Technologies that make no fuel', idle]].filter(([, figures]) => figures.length)
    .map(([name, figures]) => html('section', { class: 'fuel' }, html('h3', null, name), gridOfFigures(figures)));
  const without = fuels.filter(([, figures]) => !figures.length).map(([fuel]) => fuel).join(', ');
  const told = without && (isChange() ? 'Fuels without a change: ' : 'Neither made nor asked for: ') + without + '.';
  return html('section', { class: 'region' }, title && html('h2', null, title), costs, sections, told && aside(told));
}

// The regions beside each other, where there are several.
const regionFigures = () => present([
  figureOf(regionChart('Cost by year and region', discounted, 'TotalDiscountedCost', '')),
  ...names.EMISSION.map(emission =>
    figureOf(regionChart('Emissions by region: ' + emission, 'by year', 'AnnualEmissions', emission))),
]);

// A region is chosen by its place, so that these two stand for themselves whatever regions are called.
const TOGETHER = '*', EACH = '+';

function render() {
  const { region } = state, all = names.REGION, chosen = all.filter((_, i) => region === EACH || region === String(i));
  folds.length = 0;
  byId('main').replaceChildren(...(all.length < 2 ? [scopeSection(all)] : [gridOfFigures(regionFigures()),
    ...(region === TOGETHER ? [scopeSection(all, 'All regions together')]
      : chosen.map(one => scopeSection([one], one)))]));
  history.replaceState(null, '', '#' + new URLSearchParams(state));
}

// ---- Choices

const STYLES = [['stack', 'stacked'], ['group', 'side by side'], ['line', 'lines'], ['share', 'per cent']];
const VIEWS = ['first', 'second'];
const MOSTS = [['12', 'the 12 largest'], ['6', 'the 6 largest'], ['0', 'all']];

// What can be chosen of each part of the state, the values with their names; not where there is one alone.
function choices() {
  const ofMany = (list, choice) => (list.length > 1 ? choice : []), itself = name => [name, name];
  return [
    ['Show', 'view', ofMany(plans, [['change', 'What changes'], ...plans.map((plan, i) => [VIEWS[i], plan.file])])],
    ['Region', 'region', ofMany(names.REGION, [[TOGETHER, 'All together'], [EACH, 'Each, one after another'],
      ...names.REGION.map((region, i) => [String(i), region])])],
    ['Fuel', 'fuel', ofMany(names.FUEL, [['', 'All fuels'], ...names.FUEL.map(itself)])],
    ['Charts', 'style', STYLES],
    ['Timeslices of', 'year', ofMany(names.TIMESLICE, years.map(itself))],
    ['Technologies', 'most', MOSTS],
  ].filter(([, , options]) => options.length > 1);
}

// A control that changes a part of the state, and its label.
function choiceOf(text, part, control, valueOf, after) {
  on(control, 'change', () => {
    state[part] = valueOf(control);
    render();
  });
  return html('label', null, html('span', null, text), after ? html('span', null, control, after) : control);
}

const selectOf = ([text, part, options]) => choiceOf(text, part, html('select', null, options.map(([value, name]) =>
  html('option', { value, selected: state[part] === value ? '' : null }, name))), select => select.value);

const openBox = () => choiceOf('Numbers', 'open',
  html('input', { type: 'checkbox', checked: state.open ? '' : null }), box => (box.checked ? '1' : ''), ' open');

const saveTables = () => plans.forEach(plan => save(plan.file + '.tables.csv', plan.text, 'text/csv'));

// The page as it is drawn, without its script and what needs it: for a mail.
function saveStill() {
  folds.forEach(fillNumbers);
  const copy = document.documentElement.cloneNode(true);
  copy.querySelectorAll('script, #bar, #tip, #live, .tools').forEach(element => element.remove());
  copy.querySelectorAll('button').forEach(element => element.replaceWith(...element.childNodes));
  save(plans.map(plan => plan.file).join(' ') + '.html', '<!DOCTYPE html>\n' + copy.outerHTML, 'text/html');
}

const showBar = () => byId('bar').replaceChildren(
  ...choices().map(selectOf), openBox(),
  button('All tables', { 'aria-label': 'Download all tables' }, saveTables),
  button('Still page', { 'aria-label': 'Download this page without its script' }, saveStill));

// The state as the address has it, as far as it can be chosen, and else as it stands.
function readAddress() {
  state.region = names.REGION.length > 1 ? TOGETHER : '';
  if (names.FUEL.length > 12) state.fuel = fuelsOf(names.REGION)[0];
  const asked = new URLSearchParams(location.hash.slice(1));
  for (const [, part, options] of choices())
    if (options.some(([value]) => value === asked.get(part))) state[part] = asked.get(part);
  state.open = asked.get('open') === '1' ? '1' : '';
}

// ---- Headlines

const headline = (lab, big, mark, say, facts) => html('section', { class: 'top' },
  html('div', null, paragraph('lab', lab), paragraph('num', big)),
  html('div', null, paragraph('mark', mark), paragraph('say', say)),
  html('dl', null, facts.filter(([, value]) => value !== undefined)
    .map(([name, value]) => html('div', null, html('dt', null, name), html('dd', null, value)))));

// What the head says in whole sentences stands in the page.
const sentence = name => byId(name).content.cloneNode(true);

function headOfOne(plan) {
  const [cost, costOver] = plan.fraction('cost'), [bound, boundOver] = plan.fraction('bound');
  const [gap, gapOver] = plan.fraction('gap');
  const saved = roundedUp(gap, gapOver), parts = bound > 0n ? roundedUp(gap * boundOver, gapOver * bound) : null;
  const mark = plan.isLeast ? 'no plan costs less' : parts === null ? 'no plan costs less than the bound'
    : `at most ${several(parts, 'millionth')} above the least cost`;
  const costShown = nearest(cost * UNIT, costOver);
  return headline('Total cost, discounted to the beginning of ' + firstYear, short(costShown), 'Proved: ' + mark,
    plan.isLeast ? sentence('least') : sentence('near').textContent.replace('@', decimal(saved)),
    [['Cost', cell(costShown)], ['Bound', cell(nearest(bound * UNIT, boundOver))], ['Gap', cell(saved)],
      ['Numbers rounded when read', plan.word('rounded')], ['Decimal places of factors', plan.word('places')]]);
}

// Of the lines of `compare` that the page has, a word and what it says.
function headOfTwo() {
  const said = wordsOf(document.querySelector('.compared').textContent);
  const [status, costs, bounds, [low, high]] = ['status', 'cost', 'bound', 'difference']
    .map(word => (said.get(word) || '').split(' '));
  const change = whole(costs[2], 6), isSmall = change !== null && abs(change) < NOISE;
  const sign = change !== null && change > 0n && !isSmall ? '+' : '';
  const between = low === high ? 'exactly ' + low : `at least ${low} and at most ${high}`;
  return headline('Total cost, discounted, changes by',
    change === null ? costs[2] : sign + short(isSmall ? 0n : change),
    whole(low, 6) === null ? 'What the least cost changes by is not known'
      : 'Proved: the least cost changes by ' + between,
    status.every(word => word === 'least') ? sentence('both-least') : sentence('not-both-least'),
    [...plans.flatMap(({ file }, i) => [['Cost of ' + file, costs[i]], ['Bound of ' + file, bounds[i]]]),
      ['Least costs differ by at least', low], ['Least costs differ by at most', high]]);
}

// The members that only one of the two files has.
const onlyIn = (plan, other) => SETS.flatMap(set => {
  const known = new Set(other.members(set));
  return plan.members(set).filter(member => !known.has(member)).map(member => set + ' ' + member);
});

const onlyNotes = () => plans.map((plan, i) => [plan.file, onlyIn(plan, plans[1 - i])])
  .filter(([, list]) => list.length).map(([file, list]) => aside(`Only in ${file}: ${list.join(', ')}.`));

function headOfUnbounded(plan) {
  const columns = ['REGION', '_REGION', 'TECHNOLOGY', 'FUEL', 'TIMESLICE', 'MODE_OF_OPERATION', 'YEAR'];
  const told = (row, name) => (name === 'MODE_OF_OPERATION' ? 'mode ' : '') + row[name];
  const members = row => columns.filter(name => row[name]).map(name => told(row, name)).join(', ');
  const rows = ['RateOfActivity', 'NewCapacity', 'Trade'].flatMap(table => plan.all(table)
    .map(row => rowOf(table, [words(members(row)), amount(cell(row.VALUE))])));
  return [sentence('unbounded'), glance('What grows', [['What grows', 'w'], ['of', 'w'], 'by'], rows)];
}

const badHead = plan => html('section', { class: 'top bad' },
  plan.said.startsWith('accepted unbounded') ? headOfUnbounded(plan) : sentence('infeasible'));

// The changes that were made to the data of a plan, as they stand in their file.
const changesFold = plan => plan.made && html('details', { class: 'made' },
  html('summary', null, areTwo ? plan.file : plan.made), html('pre', null, plan.changed.join('\n')));

function showHead(isSolved) {
  const where = names.REGION.length > 1 ? names.REGION.length + ' regions' : names.REGION[0];
  const span = present([where, years.length > 1 ? firstYear + ' to ' + lastYear : firstYear]).join(', ');
  const [first, second] = plans, title = areTwo ? second.file + ' against ' + first.file : span;
  document.title = areTwo ? title : first.file + ': ' + span;
  const head = !isSolved ? [badHead(first)] : areTwo ? [headOfTwo(), ...onlyNotes()] : [headOfOne(first)];
  const over = areTwo ? 'What changes between two plans' : isSolved ? 'Energy plan of least cost' : 'Energy plan';
  byId('head').replaceChildren(...present([paragraph('over', over), html('h1', null, title),
    paragraph('file', areTwo ? span : first.file), ...plans.map(changesFold), ...head]));
}

// ---- The foot, and the start

// By the checksum anyone can see that the text of this page is the one that is proved.
const checksumNote = plan => html('li', null, html('b', null, 'SHA-256'), ` of the tables of ${plan.file}: `,
  html('code', { class: 'sum' }, sha256(plan.text)), '.');

// The notes stand in the page, of one plan, of two or of both.
function showFoot(isSolved) {
  const foot = byId('foot'), kinds = !isSolved ? '.one, .two, .both' : areTwo ? '.one' : '.two';
  foot.querySelector('li:last-child').before(...plans.map(checksumNote));
  foot.querySelectorAll(kinds).forEach(note => note.remove());
  if (!isSolved) foot.querySelector('h2').textContent = 'How to check this page';
  foot.hidden = false;
}

// Paper shows all numbers; what was folded is folded again afterwards.
function openForPrint() {
  let folded = [];
  const setOpen = isOpen => folded.forEach(details => { details.open = isOpen; });
  on(window, 'beforeprint', () => {
    folds.forEach(fillPaper);
    folded = folds.map(fold => fold.details).filter(details => !details.open);
    setOpen(true);
  });
  on(window, 'afterprint', () => setOpen(false));
}

function start() {
  const isSolved = plans.every(plan => plan.said.startsWith('accepted\n'));
  showHead(isSolved);
  showFoot(isSolved);
  document.documentElement.classList.add('drawn');
  if (!isSolved) return byId('main').replaceChildren();
  readAddress();
  showBar();
  render();
  openForPrint();
}

start();
"##;
