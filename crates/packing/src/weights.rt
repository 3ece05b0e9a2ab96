// Weights, which show how many uses the room is enough for: where each of the kept combinations weighs at least d, and the room
// weighs less than need times d, there is no room for need uses. This holds for any weights.
ghost use Rattle.std.specs.Prelude.{◌≡◌, ℕ, ◌<◌, ◌≤◌, get_or};
ghost use Rattle.packing.specs.Packing.{bit, combinations};
ghost use Rattle.packing.specs.Most.{capacity};
ghost use Rattle.packing.specs.Code.Engine.{weight, weightings, max_chosen, max_weight, Floor};
ghost use Rattle.table.specs.Limits.{max_overloads};

use crate::{COMBINATIONS, masks};
use table::Table;

// How many weightings there are: packing/weightings.py finds so many.
const WEIGHTINGS: usize = 975;

const DIGITS: usize = WEIGHTINGS * Table::OVERLOADS;

// How many of them are chosen at most: no set of combinations has more that are worth it, as packing/worst.c finds by trying them all.
pub(crate) const CHOSEN: usize = 150;

pub(crate) const SHARES: usize = CHOSEN * Table::OVERLOADS;

// The bits of a digit's ASCII code that are its value; so no digit is above it, whatever stands in the table.
const DIGIT: u8 = 15;

// No combination weighs more: it has each active segment once at most.
pub(crate) const HEAVIEST: u32 = DIGIT as u32 * Table::OVERLOADS as u32;

// The weightings, six digits each, one for each active segment. For any set of combinations, the weights by which each of them
// weighs at least 1 make a polyhedron, and the best bound that any weights give comes from one of its corners. These are the
// corners, as whole numbers, for all sets of combinations of six active segments, these in falling order of `holders`, equal ones
// in any order. Those whose last digits are 0 come first. packing/weightings.py makes the table anew, and says how. A wrong digit
// would cost time, and nothing else.
const WEIGHTS: [u8; DIGITS] =
    *b"100000010000110000001000011000101000111000000100001100010100100100011100101100110100111100111200112100\
    121100211100000010000110001010010010100010001110010110011010100110101010110010011110101110110110111010\
    011120011210012110021110101120101210102110110120110210111020111110112010120110121010201110210110211010\
    111120111210112110121110211110111220112120112210121120121210122110211120211210212110221110311110231110\
    311120311210312110321110112230112320113220121230121320122130122310123120123210131220132120132210211230\
    211320212130212310213120213210221130221310223110231120231210232110311220312120312210321120321210322110\
    000001000011000101001001010001100001000111001011001101010011010101011001100011100101101001110001001111\
    010111011011011101100111101011101101110011110101111001001112001121001211002111010112010121010211011012\
    011021011102011111011201012011012101020111021011021101100112100121100211101012101021101102101111101201\
    102011102101110012110021110102110111110201111002111011111101112001120011120101121001200111201011201101\
    210011210101211001011112011121011211012111021111101112101121101211102111110112110121110211111012111021\
    111102111111111201112011112101120111121011121101201111210111211011211101011122011212011221012112012121\
    012211013111021112021121021211022111031111101122101212101221102112102121102211103111110122110212110221\
    111022111112111121111202111211112012112021112102112111112201120112120121120211121012121021121102121111\
    121201122011122101130111201112201121201211202111210112210121210211211012211021211102211111211201212011\
    212101220111221011221101301111310111311011311101011231011321012131012311013121013211021113021131021311\
    023111031112031121031211032111102311103211111122111212111221112112112121112211120311121112121121121211\
    122111123011130211131111132011201131201311203111210131210311211031211112211121211211211301212111213011\
    213101221111230111231011231101301112301121301211302111310112310121310211311012311021311102311111311201\
    312011312101320111321011321101011223011232011322012123012132012213012231012312012321013122013212013221\
    021123021132021213021231021312021321022113022131022311023112023121023211031122031212031221032112032121\
    032211101223101232101322102123102132102213102231102312102321103122103212103221110223110232110322111222\
    112023112032112122112203112212112221112302112311113022113202113211120123120132120213120231120312120321\
    121023121032121122121203121212121221121302121311122013122031122103122112122121122211122301123012123021\
    123102123111123201130122130212130221131022131121131202131211132012132021132102132111132201201123201132\
    201213201231201312201321202113202131202311203112203121203211210123210132210213210231210312210321211023\
    211032211122211203211212211221211302212013212031212103212112212121212211212301213012213021213102213111\
    213201220113220131220311221013221031221103221112221121221211221301222111223011223101230112230121230211\
    231012231021231102231111231201232011232101301122301212301221302112302121302211310122310212310221311022\
    311112311121311202311211312012312021312102312111312201320112320121320211321012321021321102321111321201\
    322011322101411111111223111232111322112123112132112213112231112312112321113122113212113221121123121132\
    121213121231121312121321122113122131122311123112123121123211131122131212131221132112132121132211211123\
    211132211213211231211312211321212113212131212311213112213121213211221113221131221311223111231112231121\
    231211232111311122311212311221312112312121312211313111321112321121321211322111331111421111112232112322\
    113222121322122411123122123221124211131222132122132212132221142211211223211232211322212123212132212213\
    212231212312212321213122213212213221214211221123221132221213221231221312221321222113222131222311223112\
    223121223211231122231131231212231221231311232112232121232211233111241211311123311132311213311222311231\
    311312311321312113312122312131312212312221312311313112313121313211321113321122321131321212321221321311\
    322112322121322211323111331112331121331211332111411122411212411221412112412121412211421112421121421211\
    422111431111112233112323112332113223113232113322121323121332123123123132123312123321131223131232131322\
    132123132132132213132231132312132321133122133212133221211332213123213132213312213321223311231123231132\
    231312231321232113232131232311233112233121233211234111243111311223311232311322312123312132312213312231\
    312312312321312411313122313212313221314121314211321123321132321213321231321312321321321411322113322131\
    322311323112323121323211324111331122331212331221332112332121332211341112341121341211342111423111431112\
    431121431211432111522111222331223231223321232231232321233221234112234121234211241132241231241312241321\
    242131242311243112243121243211312241312421314221321241321421322141322231322321322411323122323212323221\
    324112324121324211331222332122332212332221334111341122341212341221342112342121342211343111412231412312\
    412321413212413221421123421132421213421231421312421321422113422131422311423112423121423211431122431212\
    431221432112432121432211433111511222512122512212512221521122521212521221522112522121522211532111233411\
    234311243311324311341312341321342311343112343121423311431312431321432311433112433121433211531122531212\
    531221532112532121532211533111233421234321243321253311322341322431323241323421324231324321332241332421\
    334122334212334221341223341232341322342123342132342213342231342312342321343122343212343221423312423321\
    431223431232431322432123432132432213432231432312432321433122433212433221451122451212451221452112452121\
    452211511233511323511332512133512313512331513123513132513213513231513312513321521133521313521331523113\
    523131523311531123531132531213531231531312531321532113532131532311533112533121533211541122541212541221\
    542112542121542211245311254311425311452311523411524311532411534211542311543112543121543211351242351422\
    352142352241352412352421354122354212354221453221531224531242531422532124532142532214532241532412532421\
    534122534212534221543122543212543221";

// From here to `choose`: which weightings are used. A wrong choice costs time, and nothing else, so no contract says more of these
// functions than that their numbers are in range.

// The active segments that stand in kept combinations, as a combination. A wrong answer would cost time only.
fn together(kept: &[usize; COMBINATIONS], count: usize) -> usize
    requires { count ≤ combinations }
{
    let mut all: usize = 0;
    for m in &kept[..count] {
        all |= *m;
    }
    all
}

// Whether m is a combination of active segments of `all`, and has a kept one in it. A wrong answer would cost time only.
fn holds(kept: &[usize; COMBINATIONS], count: usize, all: usize, m: usize) -> bool
    requires { count ≤ combinations }
{
    if m & all != m {
        return false;
    }
    masks::kept_part(kept, count, m) < count
}

// How many combinations of active segments of `all` have i in them, and a kept one too. A wrong number would cost time only.
fn holders(kept: &[usize; COMBINATIONS], count: usize, all: usize, i: usize) -> u8
    requires { (count ≤ combinations) × (i < max_overloads) }
{
    let mut held: u8 = 0;
    for m in 1..=all.min(COMBINATIONS - 1) {
        if holds(kept, count, all, m) {
            held += masks::has(m, i);
        }
    }
    held
}

// The `holders` of each active segment. Wrong numbers would cost time only.
fn all_holders(kept: &[usize; COMBINATIONS], count: usize, all: usize) -> [u8; Table::OVERLOADS]
    requires { count ≤ combinations }
{
    let mut out = [0u8; Table::OVERLOADS];
    for i in 0..Table::OVERLOADS {
        out[i] = holders(kept, count, all, i);
    }
    out
}

// How many active segments come before i in falling order of `holders`.
fn rank(held: &[u8; Table::OVERLOADS], i: usize) -> usize
    requires { i < max_overloads }
    ensures { result < max_overloads }
{
    let own = held[i];
    let mut before: usize = 0;
    for (j, other) in held.iter().enumerate() {
        if own < *other || own == *other && j < i {
            before += 1;
        }
    }
    before
}

// The `rank` of each active segment.
fn ranks(held: &[u8; Table::OVERLOADS]) -> [usize; Table::OVERLOADS]
    ensures { (i : ℕ) → i < max_overloads → get_or result i 0 < max_overloads }
{
    let mut out = [0usize; Table::OVERLOADS];
    for i in 0..Table::OVERLOADS {
        out[i] = rank(held, i);
    }
    out
}

// How many weightings have digits above 0 only for the first `segments` in falling order of `holders`.
fn first_rows(segments: u32) -> usize
    ensures { result ≤ weightings }
{
    match segments {
        0 => 0,
        1 => 1,
        2 => 3,
        3 => 7,
        4 => 19,
        5 => 102,
        _ => WEIGHTINGS,
    }
}

// The row v of the table as the weighting `place` of `shares`, its digits where the active segments stand. Wrong digits would cost
// time only.
fn share(
    table: &[u8; DIGITS],
    rank: &[usize; Table::OVERLOADS],
    v: usize,
    shares: &mut [u8; SHARES],
    place: usize,
)
    requires { (v < weightings) × (place < max_chosen) × ((i : ℕ) → i < max_overloads → get_or rank.now i 0 < max_overloads) }
{
    let row = v * Table::OVERLOADS;
    let base = place * Table::OVERLOADS;
    for i in 0..Table::OVERLOADS {
        shares[base + i] = table[row + rank[i]] & DIGIT;
    }
}

// How many digits of the weighting v are above 0. A wrong number would cost time only.
fn digits(shares: &[u8; SHARES], v: usize) -> usize
    requires { v < max_chosen }
{
    let base = v * Table::OVERLOADS;
    let mut some: usize = 0;

    // `filter` and `count` instead: tried, and `choose` took a tenth longer.
    for i in 0..Table::OVERLOADS {
        if 0 < shares[base + i] {
            some += 1;
        }
    }
    some
}

// Whether the weighting v may be a corner for the first n kept combinations, for some n: as many of these weigh least as there are
// digits above 0. Other weightings are no use. A wrong answer would cost time only.
fn worth(kept: &[usize; COMBINATIONS], count: usize, shares: &[u8; SHARES], v: usize) -> bool
    requires { (count ≤ combinations) × (v < max_chosen) }
{
    let some = digits(shares, v);
    let mut least = HEAVIEST;
    let mut equal: usize = 0;
    for m in &kept[..count] {
        let w = weigh(shares, v, &masks::bits(*m));
        if w == 0 {
            return false;
        }
        if w < least {
            least = w;
            equal = 1;
        } else if w == least {
            equal += 1;
        }
        if some <= equal {
            return true;
        }
    }
    false
}

// Chooses the weightings that are worth it for the kept combinations, and says how many.
pub(crate) fn choose(kept: &[usize; COMBINATIONS], count: usize, shares: &mut [u8; SHARES]) -> usize
    requires { count ≤ combinations }
    ensures { result ≤ max_chosen }
{
    let table = WEIGHTS;
    let all = together(kept, count);
    let rank = ranks(&all_holders(kept, count, all));
    let rows = first_rows(usize::count_ones(all));
    let mut used: usize = 0;
    for v in 0..rows {
        if used == CHOSEN {
            break;
        }
        share(&table, &rank, v, shares, used);
        if worth(kept, count, shares, used) {
            used += 1;
        }
    }
    used
}

// What `amount` of each active segment weighs by the weighting v.
pub(crate) fn weigh(shares: &[u8; SHARES], v: usize, amount: &[u8; Table::OVERLOADS]) -> u32
    requires { v < max_chosen }
    ensures { (result ≡ weight shares.now v (capacity amount.now)) × (result ≤ max_weight) }
{
    let base = v * Table::OVERLOADS;
    let mut sum: u32 = 0;
    for i in 0..Table::OVERLOADS {
        sum += u32::from(shares[base + i]) * u32::from(amount[i]);
    }
    sum
}

// The lesser of d and what the combination m weighs by the weighting v.
fn lower(shares: &[u8; SHARES], v: usize, m: usize, d: u32) -> u32
    requires { v < max_chosen }
    ensures { (result ≤ d) × (result ≤ weight shares.now v (λ i. bit i m)) }
{
    d.min(weigh(shares, v, &masks::bits(m)))
}

// What each of the first n kept combinations weighs at least by the weighting v, up to `most`; 0 once it is no more than `idle`.
pub(crate) fn floor(
    kept: &[usize; COMBINATIONS],
    n: usize,
    shares: &[u8; SHARES],
    v: usize,
    most: u32,
    idle: u32,
) -> u32
    requires { (n ≤ combinations) × (v < max_chosen) }
    ensures { (Floor kept.now shares.now n v result) × (result ≤ most) }
{
    let mut d = most;
    for j in 0..n {
        if d <= idle {
            return 0;
        }
        d = lower(shares, v, kept[j], d);
    }
    d
}
