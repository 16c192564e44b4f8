//! The named character references. `tools/character_names.py` makes this file.

/// The start of each list in `ROWS`, and the end of the last one.
pub(crate) static STARTS: [u16; 257] = [
    0, 29, 88, 192, 324, 397, 443, 589, 664, 741, 825, 889, 943, 1013, 1104, 1186, 1358, 1470,
    1568, 1763, 1797, 1934, 1967, 1997, 2089, 2181, 2308, 2383, 2507, 2565, 2687, 2807, 2917, 2962,
    3095, 3152, 3238, 3298, 3377, 3459, 3631, 3710, 3788, 3869, 3941, 4050, 4080, 4125, 4178, 4245,
    4293, 4421, 4614, 4762, 4804, 4880, 5017, 5072, 5128, 5200, 5280, 5431, 5561, 5703, 5793, 5882,
    6065, 6096, 6143, 6210, 6253, 6322, 6531, 6693, 6753, 6875, 6934, 7027, 7063, 7157, 7193, 7277,
    7350, 7503, 7633, 7731, 7820, 7997, 8153, 8248, 8371, 8438, 8513, 8617, 8788, 8863, 8910, 9049,
    9164, 9278, 9373, 9461, 9560, 9622, 9683, 9710, 9792, 9843, 9954, 10104, 10307, 10386, 10457,
    10656, 10735, 10806, 10831, 10909, 10961, 11087, 11212, 11265, 11410, 11465, 11604, 11671,
    11768, 11828, 11901, 11990, 12202, 12240, 12271, 12335, 12465, 12577, 12698, 12855, 12905,
    12962, 13027, 13094, 13145, 13248, 13299, 13334, 13454, 13503, 13610, 13700, 13729, 13787,
    13875, 13976, 14053, 14194, 14314, 14474, 14627, 14806, 14910, 14956, 15075, 15133, 15177,
    15238, 15321, 15432, 15547, 15685, 15781, 15809, 15944, 16050, 16133, 16192, 16315, 16403,
    16475, 16519, 16645, 16767, 16875, 16971, 17018, 17108, 17227, 17287, 17482, 17557, 17621,
    17690, 17836, 17878, 17964, 18056, 18160, 18204, 18281, 18310, 18441, 18569, 18734, 18818,
    18960, 19067, 19209, 19292, 19328, 19576, 19607, 19658, 19719, 19857, 19978, 20056, 20171,
    20265, 20348, 20440, 20504, 20569, 20662, 20865, 20987, 21121, 21252, 21376, 21552, 21640,
    21781, 21844, 21892, 21949, 22067, 22174, 22269, 22359, 22414, 22781, 22857, 23069, 23079,
    23142, 23191, 23313, 23363, 23458, 23600, 23795, 23882, 24025, 24094, 24193, 24293, 24379,
    24470,
];

/// The rows, each with a space after it: a name, `=` or, if the name counts only with a `;` after
/// it, `;`, and the characters. The lists are those of `list_of` the names.
pub(crate) static ROWS: &str = "\
    drbkarow;⤐ tshcy;ћ vcy;в VerticalLine;| dbkarow;⤏ popf;𝕡 rsaquo;› rsquor;’ CupCap;≍ Hacek;ˇ \
    HumpEqual;≏ bNot;⫭ bbrktbrk;⎶ kscr;𝓀 notin;∉ notni;∌ ogon;˛ rceil;⌉ MediumSpace;\u{205f} Or;⩔ \
    ReverseElement;∋ SquareSubsetEqual;⊑ isinE;⋹ isins;⋴ isinv;∈ kcy;к loplus;⨭ lowast;∗ lowbar;_ \
    Qfr;𝔔 RightAngleBracket;⟩ RightUpDownVector;⥏ eopf;𝕖 kgreen;ĸ Product;∏ colon;: comma;, \
    gcirc;ĝ utri;▵ DifferentialD;ⅆ LeftDoubleBracket;⟦ LeftDownTeeVector;⥡ LeftDownVectorBar;⥙ \
    LeftTriangleEqual;⊴ ecaron;ě ecolon;≕ starf;★ strns;¯ Ffr;𝔉 Zopf;ℤ ccupssm;⩐ opar;⦷ phi;φ \
    rlarr;⇄ rlhar;⇌ sdot;⋅ Uscr;𝒰 planck;ℏ plankv;ℏ plusdo;∔ plusdu;⨥ plusmn=± rppolint;⨒ Ucy;У \
    Zcaron;Ž excl;! lhard;↽ lharu;↼ lhblk;▄ odblac;ő odsold;⦼ uHar;⥣ Lsh;↰ Oopf;𝕆 \
    PrecedesSlantEqual;≼ Ugrave=Ù llcorner;⌞ Jscr;𝒥 chcy;ч elsdot;⪗ ntriangleleft;⋪ uml=¨ Gg;⋙ \
    GreaterSlantEqual;⩾ Jcy;Й mDDot;∺ mu;μ smid;∣ smte;⪬ Dopf;𝔻 NotElement;∉ NotGreater;≯ \
    puncsp;\u{2008} real;ℜ rect;▭ timesb;⊠ timesd;⨰ iuml=ï nap;≉ ominus;⊖ sacute;ś subsetneqq;⫋ \
    succapprox;⪸ supsetneqq;⫌ Dcaron;Ď blacktriangle;▴ lang;⟨ larr;← late;⪭ lurdshar;⥊ nearhk;⤤ \
    nequiv;≢ nesear;⤨ nexist;∄ quaternions;ℍ rmoustache;⎱ varepsilon;ϵ varnothing;∅ Ll;⋘ die;¨ \
    div;÷ geqq;≧ gesl;⋛\u{fe00} iiiint;⨌ iinfin;⧜ lesdoto;⪁ lessdot;⋖ lessgtr;≶ lesssim;≲ cap;∩ \
    cudarrl;⤸ cudarrr;⤵ cularrp;⤽ curarrm;⤼ hairsp;\u{200a} hamilt;ℋ hardcy;ъ vrtri;⊳ \
    DoubleDownArrow;⇓ DoubleLeftArrow;⇐ DownRightVector;⇁ NotPrecedesSlantEqual;⋠ \
    NotRightTriangleEqual;⋭ NotSucceedsSlantEqual;⋡ gE;≧ heartsuit;♥ ord;⩝ orv;⩛ sfr;𝔰 tridot;◬ \
    Gdot;Ġ ShortUpArrow;↑ hArr;⇔ backprime;‵ backsimeq;⋍ int;∫ ljcy;љ ofcir;⦿ precneqq;⪵ \
    precnsim;⋨ profalar;⌮ profline;⌒ profsurf;⌓ rbrace;} rbrack;] Pi;Π gnap;⪊ gneq;⪈ hfr;𝔥 \
    bigtriangledown;▽ wscr;𝓌 Map;⤅ OpenCurlyDoubleQuote;“ Racute;Ŕ Rarrtl;⤖ gbreve;ğ sol;/ \
    xoplus;⨁ xotime;⨂ SquareSubset;⊏ angrtvb;⊾ angzarr;⍼ nsc;⊁ qopf;𝕢 ssetmn;∖ ssmile;⌣ sstarf;⋆ \
    Emacr;Ē MinusPlus;∓ RightCeiling;⌉ lscr;𝓁 lsim;≲ lsqb;[ nwarhk;⤣ nwnear;⤧ sccue;≽ scirc;ŝ \
    scnap;⪺ scsim;≿ Delta;Δ Gammad;Ϝ Pr;⪻ Uring;Ů lcy;л models;⊧ ngeqq;≧\u{338} ngsim;≵ \
    LeftArrowBar;⇤ LeftTeeArrow;↤ LeftTriangle;⊲ LeftUpVector;↿ Rfr;ℜ fopf;𝕗 fork;⋔ ggg;⋙ hslash;ℏ \
    hstrok;ħ ascr;𝒶 doteq;≐ hcirc;ĥ nGg;⋙\u{338} nGt;≫\u{20d2} zhcy;ж ReverseUpEquilibrium;⥯ \
    acE;∾\u{333} acd;∿ acy;а bottom;⊥ bowtie;⋈ boxbox;⧉ nshortparallel;∦ xhArr;⟺ xharr;⟷ \
    EmptySmallSquare;◻ Gfr;𝔊 OverBracket;⎴ agrave=à rthree;⋌ rtimes;⋊ slarr;← tdot;\u{20db} \
    uparrow;↑ upsilon;υ Integral;∫ PrecedesEqual;⪯ PrecedesTilde;≾ Vscr;𝒱 hookrightarrow;↪ \
    npart;∂\u{338} nprec;⊀ rdquo;” Vcy;В lparlt;⦓ olcross;⦻ straightphi;ϕ GJcy;Ѓ GreaterEqual;≥ \
    GreaterTilde;≳ Popf;ℙ downharpoonright;⇂ epar;⋕ epsi;ε gtlPar;⦕ gtrarr;⥸ gtrdot;⋗ gtrsim;≳ \
    Kscr;𝒦 ldrushar;⥋ shortparallel;∥ uuml=ü yicy;ї Kcy;К apacir;⩯ approx;≈ nu;ν subnE;⫋ subne;⊊ \
    supnE;⫌ supne;⊋ zeetrf;ℨ Eopf;𝔼 SOFTcy;Ь piv;ϖ sect=§ semi;; sext;✶ varpi;ϖ Colon;∷ Gcirc;Ĝ \
    eDot;≑ le;≤ nisd;⋺ simplus;⨤ simrarr;⥲ target;⌖ Ecaron;Ě imof;⊷ macr=¯ male;♂ malt;✠ \
    multimap;⊸ rarrbfs;⤠ rarrsim;⥴ Cconint;∰ NonBreakingSpace;\u{a0} NotPrecedesEqual;⪯\u{338} \
    NotRightTriangle;⋫ NotSucceedsEqual;⪰\u{338} NotSucceedsTilde;≿\u{338} NotSupersetEqual;⊉ \
    Phi;Φ kappa;κ parallel;∥ cirE;⧃ circ;ˆ cire;≗ emptyv;∅ emsp13;\u{2004} emsp14;\u{2005} \
    iacute=í rAarr;⇛ Odblac;Ő prE;⪳ pre;⪯ tfr;𝔱 urcorn;⌝ urcrop;⌎ vartriangleright;⊳ because;∵ \
    bemptyv;⦰ between;≬ leftarrowtail;↢ leftharpoonup;↼ ubrcy;ў lrarr;⇆ lrhar;⇋ lrtri;⊿ nvinfin;⧞ \
    nvltrie;⊴\u{20d2} nvrtrie;⊵\u{20d2} DoubleContourIntegral;∯ Mu;Μ dzcy;џ fallingdotseq;≒ iff;⇔ \
    ifr;𝔦 triangledown;▿ triangleleft;◃ circlearrowleft;↺ xscr;𝓍 Iuml=Ï Sacute;Ś aring=å efDot;≒ \
    top;⊤ Lang;⟪ Larr;↞ bnequiv;≡\u{20e5} ropf;𝕣 tstrok;ŧ LeftTee;⊣ VerticalTilde;≀ \
    VeryThinSpace;\u{200a} mscr;𝓂 pound=£ Cap;⋒ mcy;м notinE;⋹\u{338} rcaron;ř rcedil;ŗ Sfr;𝔖 \
    SquareIntersection;⊓ Vbar;⫫ gopf;𝕘 isinsv;⋳ lotimes;⨴ lozenge;◊ nshortmid;∤ nsubseteq;⊈ \
    nsupseteq;⊉ CircleDot;⊙ HilbertSpace;ℋ RightDoubleBracket;⟧ RightDownTeeVector;⥝ \
    RightDownVectorBar;⥕ RightTriangleEqual;⊵ UnderBar;_ bscr;𝒷 bsim;∽ bsol;\\ eogon;ę icirc=î \
    ncongdot;⩭\u{338} Backslash;∖ Int;∬ NegativeThinSpace;\u{200b} Precedes;≺ bcy;б colone;≔ \
    commat;@ compfn;∘ conint;∮ coprod;∐ copysr;℗ utdot;⋰ utrif;▴ AElig=Æ DiacriticalDot;˙ Hfr;ℌ \
    rho;ρ Wscr;𝒲 ltcc;⪦ ltri;◃ operp;⦹ oplus;⊕ phiv;ϕ sdotb;⊡ sdote;⩦ Gbreve;Ğ \
    longleftrightarrow;⟷ nhArr;⇎ nharr;↮ nhpar;⫲ otimesas;⨶ planckh;ℎ pluscir;⨢ plussim;⨦ \
    plustwo;⨧ shortmid;∣ ENG;Ŋ Qopf;ℚ exist;∃ lharul;⥪ upharpoonleft;↿ InvisibleComma;\u{2063} \
    InvisibleTimes;\u{2062} Lscr;ℒ Scirc;Ŝ Lcy;Л bprime;‵ check;✓ lHar;⥢ ntriangleright;⋫ vee;∨ \
    yacy;я Fopf;𝔽 Hstrok;Ħ clubsuit;♣ ddagger;‡ ddotseq;⩷ smile;⌣ smtes;⪬\u{fe00} Ascr;𝒜 Hcirc;Ĥ \
    NotLessLess;≪\u{338} NotPrecedes;⊀ NotSucceeds;⊁ NotSuperset;⊃\u{20d2} oint;∮ par;∥ reals;ℝ \
    sqsubset;⊏ sqsupset;⊐ uacute=ú Acy;А iukcy;і micro=µ minus;− nang;∠\u{20d2} napE;⩰\u{338} \
    omicron;ο percnt;% period;. permil;‰ succcurlyeq;≽ succnapprox;⪺ Agrave=À UpArrow;↑ Uparrow;⇑ \
    Upsilon;Υ iecy;е langd;⦑ laquo=« larrb;⇤ lates;⪭\u{fe00} nearrow;↗ nexists;∄ pitchfork;⋔ \
    uArr;⇑ HorizontalLine;─ amp=& diam;⋄ gescc;⪩ leqslant;⩽ lesdotor;⪃ xrArr;⟹ xrarr;⟶ \
    caps;∩\u{fe00} cupbrcap;⩈ curlyvee;⋎ harrcir;⥈ mapstodown;↧ mapstoleft;↤ ufr;𝔲 \
    DoubleRightArrow;⇒ DownArrowUpArrow;⇵ Idot;İ NotSquareSupersetEqual;⋣ THORN=Þ cemptyv;⦲ gEl;⪌ \
    measuredangle;∡ ordf=ª ordm=º oror;⩖ rnmid;⫮ triplus;⨹ tritime;⨻ Uuml=Ü circledast;⊛ njcy;њ \
    KHcy;Х Nu;Ν jfr;𝔧 rbrksld;⦎ rbrkslu;⦐ gneqq;≩ gnsim;⋧ leftrightsquigarrow;↭ lnapprox;⪉ yscr;𝓎 \
    af;\u{2061} breve;˘ fflig;ﬀ rBarr;⤏ ycy;ы QUOT=\" RuleDelayed;⧴ bbrk;⎵ dfisht;⥿ psi;ψ solb;⧄ \
    sopf;𝕤 Kappa;Κ PartialD;∂ andslope;⩘ angmsdaa;⦨ angmsdab;⦩ angmsdac;⦪ angmsdad;⦫ angmsdae;⦬ \
    angmsdaf;⦭ angmsdag;⦮ angmsdah;⦯ angrtvbd;⦝ nsce;⪰\u{338} nscr;𝓃 nsim;≁ nsub;⊄ nsup;⊅ ucirc=û \
    Iacute=Í RightArrowBar;⇥ RightTeeArrow;↦ RightTriangle;⊳ RightUpVector;↾ lsime;⪍ lsimg;⪏ \
    lsquo;‘ ncy;н nwarrow;↖ scaron;š scedil;ş scnsim;⋩ Barv;⫧ Laplacetrf;ℒ Tfr;𝔗 hopf;𝕙 jsercy;ј \
    lcub;{ Because;∵ LeftTeeVector;⥚ LeftVectorBar;⥒ LessFullEqual;≦ Ubrcy;Ў cscr;𝒸 csub;⫏ csup;⫐ \
    forkv;⫙ jcirc;ĵ ClockwiseContourIntegral;∲ asymp;≈ dollar;$ nGtv;≫\u{338} Ifr;ℑ awconint;∳ \
    boxplus;⊞ longleftarrow;⟵ looparrowleft;↫ rpar;) shy=\u{ad} ultri;◸ Xscr;𝒳 nlE;≦\u{338} nle;≰ \
    nlt;≮ Aring=Å nparsl;⫽\u{20e5} nprcue;⋠ ohbar;⦵ rdquor;” spadesuit;♠ thetasym;ϑ thicksim;∼ \
    Ropf;ℝ Tstrok;Ŧ el;⪙ itilde;ĩ CapitalDifferentialD;ⅅ Mscr;ℳ dd;ⅆ eplus;⩱ epsiv;ϵ gtquest;⩼ \
    gtrless;≷ Mcy;М Rcaron;Ř Rcedil;Ŗ TScy;Ц dharl;⇃ dharr;⇂ squ;□ uuarr;⇈ Gopf;𝔾 expectation;ℰ \
    num;# subdot;⪽ subset;⊂ subsim;⫇ subsub;⫕ subsup;⫓ succeq;⪰ supdot;⪾ supset;⊃ supsim;⫈ \
    supsub;⫔ supsup;⫖ Bscr;ℬ Eogon;Ę Icirc=Î ne;≠ quatint;⨖ questeq;≟ rmoust;⎱ seArr;⇘ searr;↘ \
    setmn;∖ vangrt;⦜ varphi;ϕ varrho;ϱ Bcy;Б Colone;⩴ Conint;∯ Gcedil;Ģ eDDot;⩷ ii;ⅈ jukcy;є leg;⋚ \
    leq;≤ les;⩽ oast;⊛ Fouriertrf;ℱ Rho;Ρ cup;∪ imacr;ī image;ℑ imath;ı imped;Ƶ raemptyv;⦳ vArr;⇕ \
    COPY=© NotGreaterGreater;≫\u{338} NotLessSlantEqual;⩽\u{338} NotNestedLessLess;⪡\u{338} \
    NotReverseElement;∌ NotSquareSuperset;⊐\u{338} NotTildeFullEqual;≇ auml=ä cylcty;⌭ kappav;ϰ \
    LongLeftRightArrow;⟷ Longleftrightarrow;⟺ darr;↓ dash;‐ female;♀ rAtail;⤜ rightarrowtail;↣ \
    rightharpoonup;⇀ vfr;𝔳 vzigzag;⦚ wreath;≀ LT=< UpEquilibrium;⥮ demptyv;⦱ eqslantgtr;⪖ prap;⪷ \
    prec;≺ prnE;⪵ prod;∏ prop;∝ SHCHcy;Щ leftleftarrows;⇇ leftrightarrow;↔ leftthreetimes;⋋ lnE;≨ \
    lne;⪇ nrArr;⇏ nrarr;↛ nrtri;⋫ ubreve;ŭ Element;∈ Vee;⋁ curvearrowleft;↶ kfr;𝔨 lrhard;⥭ \
    nbsp=\u{a0} lbarr;⤌ lbbrk;❲ lbrke;⦋ lvertneqq;≨\u{fe00} triangleright;▹ zscr;𝓏 Uacute=Ú and;∧ \
    ang;∠ circlearrowright;↻ crarr;↵ cross;✗ djcy;ђ nVDash;⊯ nVdash;⊮ zcy;з Iukcy;І Omicron;Ο \
    RightTee;⊢ SubsetEqual;⊆ swArr;⇙ swarr;↙ toea;⤨ topf;𝕥 tosa;⤩ vsubnE;⫋\u{fe00} \
    vsubne;⊊\u{fe00} vsupnE;⫌\u{fe00} vsupne;⊋\u{fe00} xcap;⋂ xcup;⋃ NewLine;\n REG=® oscr;ℴ \
    osol;⊘ roang;⟭ roarr;⇾ robrk;⟧ ropar;⦆ LessLess;⪡ lg;≶ ocy;о tcaron;ť tcedil;ţ ImaginaryI;ⅈ \
    Ufr;𝔘 iocy;ё iopf;𝕚 iota;ι notinva;∉ notinvb;⋷ notinvc;⋶ notniva;∌ notnivb;⋾ notnivc;⋽ oS;Ⓢ \
    ograve=ò Cedilla;¸ SquareSupersetEqual;⊒ dscr;𝒹 dscy;ѕ dsol;⧶ isindot;⋵ nsubseteqq;⫅\u{338} \
    nsupseteqq;⫆\u{338} wp;℘ CirclePlus;⊕ OverBar;‾ RightArrowLeftArrow;⇄ UnionPlus;⊎ bsemi;⁏ \
    bsime;⋍ bsolb;⧅ dcy;д dwangle;⦦ Jfr;𝔍 NegativeThickSpace;\u{200b} TRADE;™ coloneq;≔ congdot;⩭ \
    spar;∥ utilde;ũ vltri;⊲ LeftArrowRightArrow;⇆ Yscr;𝒴 ntgl;≹ ntlg;≸ olt;⧀ rhov;ϱ udarr;⇅ \
    udhar;⥮ Breve;˘ RBarr;⤐ Ycy;Ы gt=> ltcir;⩹ ltdot;⋖ ltrie;⊴ ltrif;◂ mlcp;⫛ mldr;… phone;☎ Psi;Ψ \
    Sopf;𝕊 eta;η eth=ð ldca;⤶ ldsh;↲ plusacir;⨣ Nscr;𝒩 Ucirc=Û ap;≈ nleqslant;⩽\u{338} \
    upharpoonright;↾ Ncy;Н Scaron;Š Scedil;Ş Hopf;ℍ Jsercy;Ј elinters;⏧ ntrianglelefteq;⋬ pm;± \
    sim;∼ umacr;ū vert;| Cscr;𝒞 Jcirc;Ĵ qint;⨌ ruluhar;⥨ smashp;⨳ DotDot;\u{20dc} NotCongruent;≢ \
    NotHumpEqual;≏\u{338} NotLessEqual;≰ NotLessTilde;≴ para=¶ part;∂ timesbar;⨱ LongLeftArrow;⟵ \
    Longleftarrow;⟸ jmath;ȷ midast;* midcir;⫰ middot=· minusb;⊟ minusd;∸ nabla;∇ napid;≋\u{338} \
    napos;ŉ natur;♮ pertenk;‱ bull;• bump;≎ eqsim;≂ equiv;≡ gap;⪆ iexcl=¡ lacute;ĺ lagran;ℒ \
    lambda;λ langle;⟨ larrfs;⤝ larrhk;↩ larrlp;↫ larrpl;⤹ larrtl;↢ latail;⤙ varsubsetneq;⊊\u{fe00} \
    varsupsetneq;⊋\u{fe00} diams;♦ disin;⋲ gesdot;⪀ gesles;⪔ leftarrow;← lesseqgtr;⋚ wfr;𝔴 \
    Itilde;Ĩ bigcap;⋂ bigcup;⋃ bigvee;⋁ caret;⁁ caron;ˇ lArr;⇐ DoubleUpDownArrow;⇕ \
    DoubleVerticalBar;∥ DownLeftTeeVector;⥞ DownLeftVectorBar;⥖ NotNestedGreaterGreater;⪢\u{338} \
    aacute=á lvnE;≨\u{fe00} orarr;↻ order;ℴ triangle;▵ triminus;⨺ trpezium;⏢ ShortDownArrow;↓ \
    ShortLeftArrow;← circledcirc;⊚ circleddash;⊝ lfr;𝔩 Subset;⋐ Supset;⋑ backepsilon;϶ infin;∞ \
    precapprox;⪷ vBar;⫨ bne;=\u{20e5} nrightarrow;↛ Jukcy;Є afr;𝔞 brvbar=¦ ffilig;ﬃ ffllig;ﬄ rsh;↱ \
    twixt;≬ uopf;𝕦 Cup;⋓ Imacr;Ī SmallCircle;∘ pscr;𝓅 wcirc;ŵ Auml=Ä SquareSuperset;⊐ loz;◊ \
    nsime;≄ nsmid;∤ nspar;∦ nsubE;⫅\u{338} nsube;⊈ nsucc;⊁ nsupE;⫆\u{338} nsupe;⊉ pcy;п Darr;↡ \
    OElig;Œ RightTeeVector;⥛ RightVectorBar;⥓ Vfr;𝔙 jopf;𝕛 lsaquo;‹ lsquor;‚ lstrok;ł ncap;⩃ \
    ncup;⩂ EqualTilde;≂ escr;ℯ esim;≂ hoarr;⇿ lceil;⌈ LeftDownVector;⇃ LeftRightArrow;↔ \
    Leftrightarrow;⇔ LessSlantEqual;⩽ Ubreve;Ŭ csube;⫑ csupe;⫒ ecy;э forall;∀ twoheadleftarrow;↞ \
    Kfr;𝔎 cwconint;∲ dotplus;∔ egrave=è egsdot;⪘ Zscr;𝒵 acirc=â acute=´ boxminus;⊟ boxtimes;⊠ \
    longrightarrow;⟶ looparrowright;↬ mp;∓ shcy;ш ulcorn;⌜ ulcrop;⌏ vdash;⊢ And;⩓ Cross;⨯ Zcy;З \
    nldr;‥ nleq;≰ nles;⩽\u{338} rtriltri;⧎ KJcy;Ќ Topf;𝕋 gl;≷ llarr;⇇ lltri;◺ npolint;⨔ \
    npreceq;⪯\u{338} rdldhar;⥩ therefore;∴ IJlig;Ĳ Oscr;𝒪 dtri;▿ ell;ℓ els;⪕ yucy;ю yuml=ÿ \
    GreaterGreater;⪢ Ocy;О Tcaron;Ť Tcedil;Ţ eparsl;⧣ xmap;⟼ yen=¥ Iopf;𝕀 Iota;Ι NoBreak;\u{2060} \
    NotLess;≮ Ograve=Ò TSHcy;Ћ aleph;ℵ alpha;α squf;▪ Dscr;𝒟 approxeq;≊ exponentiale;ⅇ \
    nleftrightarrow;↮ ring;˚ subedot;⫃ submult;⫁ subplus;⪿ subrarr;⥹ succsim;≿ supdsub;⫘ supedot;⫄ \
    suphsol;⟉ suphsub;⫗ suplarr;⥻ supmult;⫂ supplus;⫀ Dcy;Д dHar;⥥ searhk;⤥ seswar;⤩ Utilde;Ũ \
    leqq;≦ lesg;⋚\u{fe00} cups;∪\u{fe00} ee;ⅇ mapsto;↦ marker;▮ rationals;ℚ xvee;⋁ DownArrowBar;⤓ \
    DownTeeArrow;↧ Gt;≫ NotLeftTriangleBar;⧏\u{338} hearts;♥ hellip;… hercon;⊹ lE;≦ lmoustache;⎰ \
    xfr;𝔵 Eta;Η circeq;≗ cirmid;⫯ dashv;⊣ emptyset;∅ rightleftarrows;⇄ rightsquigarrow;↝ \
    rightthreetimes;⋌ Exists;∃ UpperLeftArrow;↖ barvee;⊽ barwed;⌅ eqslantless;⪕ prcue;≼ prime;′ \
    prnap;⪹ prsim;≾ urcorner;⌝ Lleftarrow;⇚ diamondsuit;♦ leftharpoondown;↽ leftrightarrows;⇆ \
    lnap;⪉ lneq;⪇ mfr;𝔪 nrarrc;⤳\u{338} nrarrw;↝\u{338} nrtrie;⋭ rfisht;⥽ rfloor;⌋ Umacr;Ū Vert;‖ \
    curvearrowright;↷ nbump;≎\u{338} erDot;≓ erarr;⥱ lbrace;{ lbrack;[ trianglelefteq;⊴ CHcy;Ч \
    andd;⩜ andv;⩚ ange;⦤ bfr;𝔟 vopf;𝕧 xsqcup;⨆ ApplyFunction;\u{2061} qscr;𝓆 sc;≻ swarhk;⤦ \
    swnwar;⤪ xcirc;◯ Equal;⩵ Lacute;Ĺ Lambda;Λ abreve;ă roplus;⨮ LeftArrow;← LeftFloor;⌊ \
    Leftarrow;⇐ LessTilde;≲ Wfr;𝔚 kopf;𝕜 lgE;⪑ mstpos;∾ ocir;⊚ HumpDownHump;≎ fscr;𝒻 iogon;į \
    notindot;⋵\u{338} Aacute=Á bot;⊥ fcy;ф kcedil;ķ CircleMinus;⊖ CircleTimes;⊗ HARDcy;Ъ Lfr;𝔏 \
    UnderBrace;⏟ hksearow;⤥ hkswarow;⤦ upsi;υ xlArr;⟸ xlarr;⟵ NegativeMediumSpace;\u{200b} \
    Proportion;∷ bcong;≌ DiacriticalAcute;´ DiacriticalGrave;` DiacriticalTilde;˜ it;\u{2062} \
    qprime;⁗ rhard;⇁ rharu;⇀ udblac;ű Afr;𝔄 LJcy;Љ Rsh;↱ Uopf;𝕌 lthree;⋋ ltimes;⋉ ltlarr;⥶ \
    ltrPar;⦖ phmmat;ℳ Pscr;𝒫 Wcirc;Ŵ ldquo;“ Pcy;П apE;⩰ ape;≊ ctdot;⋯ nleftarrow;↚ xutri;△ Jopf;𝕁 \
    Lstrok;Ł atilde=ã blank;␣ blk12;▒ blk14;░ blk34;▓ block;█ cdot;ċ Escr;ℰ Esim;⩳ \
    ntrianglerighteq;⋭ ouml=ö sime;≃ simg;⪞ siml;⪝ tau;τ veeeq;≚ yacute=ý Ecy;Э ForAll;∀ mumap;⊸ \
    nmid;∤ race;∽\u{331} rang;⟩ rarr;→ telrec;⌕ Assign;≔ DownTee;⊤ Egrave=È NotEqualTilde;≂\u{338} \
    NotTildeEqual;≄ NotTildeTilde;≉ parsl;⫽ realine;ℛ sqsubseteq;⊑ sqsupseteq;⊒ Acirc=Â \
    LongRightArrow;⟶ Longrightarrow;⟹ LowerLeftArrow;↙ Vdash;⊩ minusdu;⨪ nacute;ń rightarrow;→ \
    wr;≀ ZHcy;Ж bumpE;⪮ bumpe;≏ deg=° eqcirc;≖ equals;= equest;≟ filig;ﬁ larrbfs;⤟ larrsim;⥳ \
    varsubsetneqq;⫋\u{fe00} varsupsetneqq;⫌\u{fe00} xnis;⋻ yfr;𝔶 Therefore;∴ ThinSpace;\u{2009} \
    amacr;ā amalg;⨿ beta;β beth;ℶ divide=÷ divonx;⋇ gesdoto;⪂ lessapprox;⪅ lesseqqgtr;⪋ \
    vnsub;⊂\u{20d2} vnsup;⊃\u{20d2} Yuml;Ÿ bigcirc;◯ bigodot;⨀ bigstar;★ cacute;ć capand;⩄ \
    capcap;⩋ capcup;⩇ capdot;⩀ curlywedge;⋏ lAarr;⇚ nvap;≍\u{20d2} nvge;≥\u{20d2} nvgt;>\u{20d2} \
    nvle;≤\u{20d2} nvlt;<\u{20d2} DownRightTeeVector;⥟ DownRightVectorBar;⥗ centerdot;· nfr;𝔫 \
    origof;⊶ sfrown;⌢ triangleq;≜ Alpha;Α ShortRightArrow;→ Sqrt;√ zwj;\u{200d} ExponentialE;ⅇ \
    frasl;⁄ frown;⌢ gjcy;ѓ incare;℅ inodot;ı intcal;⊺ preccurlyeq;≼ precnapprox;⪹ vBarv;⫩ YIcy;Ї \
    bnot;⌐ cfr;𝔠 drcorn;⌟ drcrop;⌌ wopf;𝕨 dblac;˝ rscr;𝓇 rsqb;] uogon;ų ycirc;ŷ CloseCurlyQuote;’ \
    Hat;^ not=¬ rcy;р softcy;ь solbar;⌿ Mellintrf;ℳ TildeFullEqual;≅ Xfr;𝔛 lopf;𝕝 lozf;⧫ nsccue;⋡ \
    nsimeq;≄ Dashv;⫤ RightDownVector;⇂ SucceedsSlantEqual;≽ Union;⋃ gscr;ℊ gsim;≳ ic;\u{2063} \
    ncong;≇ scpolint;⨓ Barwed;⌆ Equilibrium;⇌ NestedLessLess;≪ Prime;″ esdot;≐ gcy;г homtht;∻ \
    horbar;― lcaron;ľ lcedil;ļ LeftRightVector;⥎ LeftTriangleBar;⧏ LeftUpTeeVector;⥠ \
    LeftUpVectorBar;⥘ Mfr;𝔐 aopf;𝕒 ecir;≖ twoheadrightarrow;↠ zdot;ż asympeq;≍ bkarow;⤍ ccaps;⩍ \
    ccirc;ĉ ccups;⩌ doteqdot;≑ dotminus;∸ rlm;\u{200f} xdtri;▽ plus;+ rpargt;⦔ sharp;♯ Bfr;𝔅 \
    UnderParenthesis;⏝ Vopf;𝕍 nlArr;⇍ nlarr;↚ nleqq;≦\u{338} nless;≮ nlsim;≴ nltri;⋪ odiv;⨸ odot;⊙ \
    upuparrows;⇈ DZcy;Џ FilledVerySmallSquare;▪ Qscr;𝒬 Sc;⪼ glE;⪒ gla;⪥ glj;⪤ iprod;⨼ llhard;⥫ \
    mdash;— Abreve;Ă DiacriticalDoubleAcute;˝ dtdot;⋱ dtrif;▾ nLl;⋘\u{338} nLt;≪\u{20d2} xi;ξ \
    Kopf;𝕂 clubs;♣ epsilon;ε gtrapprox;⪆ gtreqless;⋛ Fscr;ℱ Iogon;Į NotEqual;≠ NotTilde;≁ bdquo;„ \
    sqcap;⊓ sqcup;⊔ sqsub;⊏ sqsup;⊐ tint;∭ wedge;∧ zacute;ź Fcy;Ф Kcedil;Ķ numsp;\u{2007} omid;⦶ \
    subseteq;⊆ succneqq;⪶ succnsim;⋩ supseteq;⊇ Upsi;ϒ blacksquare;▪ searrow;↘ varkappa;ϰ \
    varsigma;ς vartheta;ϑ euml=ë euro;€ ge;≥ lescc;⪨ oacute=ó Udblac;Ű cuepr;⋞ cuesc;⋟ cupor;⩅ \
    cuvee;⋎ cuwed;⋏ gimel;ℷ half;½ harr;↔ maltese;✠ smallsetminus;∖ zfr;𝔷 DoubleLeftTee;⫤ \
    DoubleUpArrow;⇑ NotGreaterFullEqual;≧\u{338} NotRightTriangleBar;⧐\u{338} cent=¢ lEg;⪋ szlig=ß \
    trie;≜ PlusMinus;± aelig=æ cirscir;⧂ dagger;† daleth;ℸ rightharpoondown;⇁ rightrightarrows;⇉ \
    rrarr;⇉ UpperRightArrow;↗ backsim;∽ ofr;𝔬 preceq;⪯ primes;ℙ prnsim;⋨ propto;∝ prurel;⊰ \
    Atilde=Ã Cdot;Ċ dArr;⇓ lneqq;≨ lnsim;⋦ Ouml=Ö Tab;\t Tau;Τ Yacute=Ý bigtriangleup;△ eng;ŋ \
    grave;` lrcorner;⌟ nbumpe;≏\u{338} DoubleLongLeftRightArrow;⟺ Rang;⟫ Rarr;↠ dfr;𝔡 fjlig;fj \
    lbrksld;⦏ lbrkslu;⦍ trianglerighteq;⊵ xopf;𝕩 Uarrocir;⥉ YAcy;Я angle;∠ angrt;∟ angst;Å sscr;𝓈 \
    Nacute;Ń RightArrow;→ RightFloor;⌋ Rightarrow;⇒ SucceedsEqual;⪰ SucceedsTilde;≿ \
    SupersetEqual;⊇ ZeroWidthSpace;\u{200b} lBarr;⤎ scE;⪴ sce;⪰ scy;с swarrow;↙ topbot;⌶ topcir;⫱ \
    Del;∇ Yfr;𝔜 mopf;𝕞 ngE;≧\u{338} nge;≱ ngt;≯ oslash=ø rotimes;⨵ Amacr;Ā Beta;Β LeftVector;↼ \
    hscr;𝒽 ocirc=ô pointint;⨕ Cacute;Ć CloseCurlyDoubleQuote;” IEcy;Е dot;˙ eg;⪚ mcomma;⨩ AMP=& \
    CenterDot;· Nfr;𝔑 ReverseEquilibrium;⇋ TripleDot;\u{20db} awint;⨑ bopf;𝕓 boxH;═ boxV;║ boxh;─ \
    boxv;│ dstrok;đ longmapsto;⟼ OverBrace;⏞ rtri;▹ uplus;⊎ upsih;ϒ NestedGreaterGreater;≫ \
    complexes;ℂ npr;⊀ spades;♠ theta;θ thkap;≈ thorn=þ Cfr;ℭ NJcy;Њ Wopf;𝕎 lpar;( mho;℧ ntilde=ñ \
    olarr;↺ olcir;⦾ oline;‾ rharul;⥬ Rscr;ℛ Uogon;Ų Ycirc;Ŷ doublebarwedge;⌆ downdownarrows;⇊ \
    gtcc;⪧ khcy;х ltquest;⩻ ndash;– Not;⫬ Rcy;Р flat;♭ ldquor;„ rHar;⥤ Lopf;𝕃 apid;≋ apos;' edot;ė \
    sub;⊂ sum;∑ sup;⊃ xuplus;⨄ zeta;ζ Gscr;𝒢 quot=\" zigrarr;⇝ Gcy;Г Lcaron;Ľ Lcedil;Ļ \
    RoundImplies;⥰ ni;∋ sigma;σ simeq;≃ simgE;⪠ simlE;⪟ simne;≆ veebar;⊻ vellip;⋮ verbar;| Aopf;𝔸 \
    Poincareplane;ℌ Zdot;Ż radic;√ rangd;⦒ range;⦥ raquo=» rarrb;⇥ rarrc;⤳ rarrw;↝ ratio;∶ \
    smeparsl;⧤ Ccirc;Ĉ DotEqual;≐ NotGreaterLess;≹ NotLessGreater;≸ NotSubsetEqual;⊈ \
    NotVerticalBar;∤ hybull;⁃ hyphen;‐ lmidot;ŀ lmoust;⎰ parsim;⫳ realpart;ℜ LowerRightArrow;↘ \
    Vdashl;⫦ duarr;⇵ duhar;⥯ emsp;\u{2003} napprox;≉ natural;♮ UpArrowBar;⤒ UpTeeArrow;↥ \
    blacktriangledown;▾ blacktriangleleft;◂ bullet;• bumpeq;≏ eqcolon;≕ equivDD;⩸ gamma;γ \
    laemptyv;⦴ ThickSpace;\u{205f}\u{200a} bepsi;϶ diamond;⋄ digamma;ϝ eacute=é easter;⩮ \
    geqslant;⩾ gesdotol;⪄ srarr;→ Xi;Ξ bigoplus;⨁ bigsqcup;⨆ biguplus;⨄ bigwedge;⋀ curlyeqprec;⋞ \
    curlyeqsucc;⋟ lAtail;⤛ lrm;\u{200e} nvsim;∼\u{20d2} pfr;𝔭 ufisht;⥾ DoubleLongLeftArrow;⟸ \
    DownLeftRightVector;⥐ Epsilon;Ε orderof;ℴ orslope;⩗ Re;ℜ Wedge;⋀ Zacute;Ź zwnj;\u{200c} DD;ⅅ \
    Succeeds;≻ SuchThat;∋ Superset;⊃ efr;𝔢 frac12=½ frac13;⅓ frac14=¼ frac15;⅕ frac16;⅙ frac18;⅛ \
    frac23;⅔ frac25;⅖ frac34=¾ frac35;⅗ frac38;⅜ frac45;⅘ frac56;⅚ frac58;⅝ frac78;⅞ hbar;ℏ \
    intprod;⨼ yopf;𝕪 gnapprox;⪊ tscr;𝓉 tscy;ц Euml=Ë Oacute=Ó VerticalBar;∣ rsquo;’ tcy;т \
    Implies;⇒ Zfr;ℨ nRightarrow;⇏ nopf;𝕟 ogt;⧁ rcub;} Vvdash;⊪ iscr;𝒾 isin;∈ loang;⟬ loarr;⇽ \
    lobrk;⟦ lopar;⦅ nsqsube;⋢ nsqsupe;⋣ nsubset;⊂\u{20d2} nsucceq;⪰\u{338} nsupset;⊃\u{20d2} \
    Dagger;‡ RightTriangleBar;⧐ RightUpTeeVector;⥜ RightUpVectorBar;⥔ gsime;⪎ gsiml;⪐ icy;и \
    ncaron;ň ncedil;ņ Ofr;𝔒 comp;∁ cong;≅ copf;𝕔 copy=© igrave=ì ngeqslant;⩾\u{338} rx;℞ \
    Bernoullis;ℬ LeftAngleBracket;⟨ LeftUpDownVector;⥑ LessEqualGreater;⋚ aogon;ą ecirc=ê star;☆ \
    vprop;∝ ccaron;č ccedil=ç dotsquare;⊡ downarrow;↓ lt=< tprime;‴ uharl;↿ uharr;↾ uhblk;▀ Dfr;𝔇 \
    Xopf;𝕏 otilde=õ otimes;⊗ plusb;⊞ pluse;⩲ shchcy;щ ulcorner;⌜ EmptyVerySmallSquare;▫ \
    OverParenthesis;⏜ Sscr;𝒮 nltrie;⋬ odash;⊝ updownarrow;↕ Intersection;⋂ Scy;С nparallel;∦ \
    thickapprox;≈ vDash;⊨ DJcy;Ђ Mopf;𝕄 Oslash=Ø chi;χ nLtv;≪\u{338} straightepsilon;ϵ \
    GreaterEqualLess;⋛ GreaterFullEqual;≧ Hscr;ℋ Ocirc=Ô ddarr;⇊ gtreqqless;⪌ smt;⪪ Dot;¨ \
    NotCupCap;≭ NotExists;∄ NotSubset;⊂\u{20d2} alefsym;ℵ reg=® sqcaps;⊓\u{fe00} sqcups;⊔\u{fe00} \
    sqsube;⊑ sqsupe;⊒ square;□ squarf;▪ tilde;˜ times=× uarr;↑ wedbar;⩟ wedgeq;≙ weierp;℘ Bopf;𝔹 \
    Dstrok;Đ mid;∣ numero;№ omacr;ō omega;ω perp;⊥ subseteqq;⫅ subsetneq;⊊ supseteqq;⫆ supsetneq;⊋ \
    IOcy;Ё UpTee;⊥ blacklozenge;⧫ lap;⪅ lat;⪫ luruhar;⥦ neArr;⇗ nearr;↗ nedot;≐\u{338} \
    nesim;≂\u{338} setminus;∖ varpropto;∝ Congruent;≡ Coproduct;∐ DScy;Ѕ Theta;Θ gel;⋛ geq;≥ ges;⩾ \
    iiint;∭ iiota;℩ lesdot;⩿ lesges;⪓ nLeftrightarrow;⇎ Ntilde=Ñ cularr;↶ cupcap;⩆ cupcup;⩊ \
    cupdot;⊍ curarr;↷ curren=¤ harrw;↭ imagline;ℐ imagpart;ℑ mapstoup;↥ DoubleRightTee;⊨ \
    DownLeftVector;↽ NotDoubleVerticalBar;∦ NotGreaterSlantEqual;⩾\u{338} NotLeftTriangleEqual;⋬ \
    NotSquareSubsetEqual;⋢ cedil=¸ or;∨ trade;™ trisb;⧍ circledR;® circledS;Ⓢ cirfnint;⨐ ovbar;⌽ \
    qfr;𝔮 rightleftharpoons;⇌ tbrk;⎴ Edot;Ė GT=> Sub;⋐ Sum;∑ Sup;⋑ UpArrowDownArrow;⇅ Zeta;Ζ \
    backcong;≌ barwedge;⌅ in;∈ precsim;≾ rbarr;⤍ rbbrk;❳ rbrke;⦌ ETH=Ð divideontimes;⋇ gnE;≩ gne;⪈ \
    leftrightharpoons;⇋ Sigma;Σ Verbar;‖ ensp;\u{2002} ffr;𝔣 zopf;𝕫 Im;ℑ dzigrarr;⟿ \
    gvertneqq;≩\u{fe00} uscr;𝓊 xodot;⨀ Lmidot;Ŀ SquareUnion;⊔ TildeEqual;≃ TildeTilde;≈ andand;⩕ \
    angmsd;∡ angsph;∢ ucy;у uwangle;⦧ zcaron;ž DDotrahd;⤑ RightVector;⇀ lsh;↰ nwArr;⇖ nwarr;↖ \
    oopf;𝕠 scap;⪸ scnE;⪶ topfork;⫚ ugrave=ù Bumpeq;≎ CounterClockwiseContourIntegral;∳ Gamma;Γ \
    jscr;𝒿 ngeq;≱ nges;⩾\u{338} ngtr;≯ Diamond;⋄ Eacute=É LeftCeiling;⌈ LessGreater;≶ \
    VerticalSeparator;❘ gg;≫ jcy;й Cayleys;ℭ Pfr;𝔓 ast;* cwint;∱ dopf;𝕕 egs;⪖ ac;∾ boxDL;╗ boxDR;╔ \
    boxDl;╖ boxDr;╓ boxHD;╦ boxHU;╩ boxHd;╤ boxHu;╧ boxUL;╝ boxUR;╚ boxUl;╜ boxUr;╙ boxVH;╬ \
    boxVL;╣ boxVR;╠ boxVh;╫ boxVl;╢ boxVr;╟ boxdL;╕ boxdR;╒ boxdl;┐ boxdr;┌ boxhD;╥ boxhU;╨ \
    boxhd;┬ boxhu;┴ boxuL;╛ boxuR;╘ boxul;┘ boxur;└ boxvH;╪ boxvL;╡ boxvR;╞ boxvh;┼ boxvl;┤ \
    boxvr;├ Rrightarrow;⇛ UnderBracket;⎵ bsolhsub;⟈ dcaron;ď rtrie;⊵ rtrif;▸ Efr;𝔈 \
    FilledSmallSquare;◼ NegativeVeryThinSpace;\u{200b} Proportional;∝ Yopf;𝕐 complement;∁ \
    hookleftarrow;↩ ll;≪ npar;∦ npre;⪯\u{338} ohm;Ω rdca;⤷ rdsh;↳ there4;∴ thetav;ϑ \
    thinsp;\u{2009} thksim;∼ Tscr;𝒯 GreaterLess;≷ Tcy;Т downharpoonleft;⇃ gtcir;⩺ gtdot;⋗ Nopf;ℕ \
    fllig;ﬂ fltns;▱ gdot;ġ ldrdhar;⥧ Iscr;ℐ dlcorn;⌞ dlcrop;⌍ fpartint;⨍ subE;⫅ sube;⊆ succ;≻ \
    sung;♪ sup1=¹ sup2=² sup3=³ supE;⫆ supe;⊇ Icy;И Ncaron;Ň Ncedil;Ņ pi;π quest;? varr;↕ Copf;ℂ \
    Igrave=Ì checkmark;✓ nLeftarrow;⇍ nis;⋼ niv;∋ sigmaf;ς sigmav;ς simdot;⩪ Aogon;Ą Ecirc=Ê \
    Star;⋆ map;↦ oelig;œ racute;ŕ rangle;⟩ rarrap;⥵ rarrfs;⤞ rarrhk;↪ rarrlp;↬ rarrpl;⥅ rarrtl;↣ \
    ratail;⤚ Ccaron;Č Ccedil=Ç DoubleDot;¨ DownArrow;↓ DownBreve;\u{311} Downarrow;⇓ Lt;≪ \
    NotGreaterEqual;≱ NotGreaterTilde;≵ NotHumpDownHump;≎\u{338} NotLeftTriangle;⋪ \
    NotSquareSubset;⊏\u{338} iquest=¿ Otilde=Õ Otimes;⨷ cir;○ emacr;ē empty;∅ naturals;ℕ rArr;⇒ \
    risingdotseq;≓ UpDownArrow;↕ Updownarrow;⇕ blacktriangleright;▸ delta;δ eqvparsl;⧥ gacute;ǵ \
    gammad;ϝ pr;≺ uring;ů urtri;◹ vartriangleleft;⊲ ContourIntegral;∮ SHcy;Ш VDash;⊫ becaus;∵ \
    bernou;ℬ rfr;𝔯 Chi;Χ bigotimes;⨂ capbrcup;⩉ nvDash;⊭ nvHarr;⤄ nvdash;⊬ nvlArr;⤂ nvrArr;⤃ \
    sbquo;‚ DoubleLeftRightArrow;⇔ DoubleLongRightArrow;⟹ OpenCurlyQuote;‘ gvnE;≩\u{fe00} kjcy;ќ \
    mnplus;∓ Square;□ Tilde;∼ Uarr;↟ YUcy;Ю fnof;ƒ gfr;𝔤 ijlig;ĳ lfisht;⥼ lfloor;⌊ Omacr;Ō Omega;Ω \
    infintie;⧝ integers;ℤ intercal;⊺ intlarhk;⨗ vscr;𝓋 xwedge;⋀ ";
