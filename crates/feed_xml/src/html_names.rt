//! The names that HTML gives to characters, by their first letter: behind `&name;` stand the characters, up to the
//! next space. Written by `tools/html-names`.

// A list for each byte from A to z.
pub(crate) const NAMES: [&str; 58] = [
    "\
    &AElig;Æ &Aacute;Á &Acirc;Â &Agrave;À &Alpha;Α &Aring;Å &Atilde;Ã &Auml;Ä &AMP;& &Abreve;Ă \
    &Acy;А &Afr;𝔄 &Amacr;Ā &And;⩓ &Aogon;Ą &Aopf;𝔸 &ApplyFunction;\u{2061} &Ascr;𝒜 &Assign;≔ ",
    "\
    &Beta;Β &Backslash;∖ &Barv;⫧ &Barwed;⌆ &Bcy;Б &Because;∵ &Bernoullis;ℬ &Bfr;𝔅 &Bopf;𝔹 &Breve;˘ \
    &Bscr;ℬ &Bumpeq;≎ ",
    "\
    &Ccedil;Ç &Chi;Χ &CHcy;Ч &COPY;© &Cacute;Ć &Cap;⋒ &CapitalDifferentialD;ⅅ &Cayleys;ℭ &Ccaron;Č \
    &Ccirc;Ĉ &Cconint;∰ &Cdot;Ċ &Cedilla;¸ &CenterDot;· &Cfr;ℭ &CircleDot;⊙ &CircleMinus;⊖ \
    &CirclePlus;⊕ &CircleTimes;⊗ &ClockwiseContourIntegral;∲ &CloseCurlyDoubleQuote;” \
    &CloseCurlyQuote;’ &Colon;∷ &Colone;⩴ &Congruent;≡ &Conint;∯ &ContourIntegral;∮ &Copf;ℂ \
    &Coproduct;∐ &CounterClockwiseContourIntegral;∳ &Cross;⨯ &Cscr;𝒞 &Cup;⋓ &CupCap;≍ ",
    "\
    &Dagger;‡ &Delta;Δ &DD;ⅅ &DDotrahd;⤑ &DJcy;Ђ &DScy;Ѕ &DZcy;Џ &Darr;↡ &Dashv;⫤ &Dcaron;Ď &Dcy;Д \
    &Del;∇ &Dfr;𝔇 &DiacriticalAcute;´ &DiacriticalDot;˙ &DiacriticalDoubleAcute;˝ \
    &DiacriticalGrave;` &DiacriticalTilde;˜ &Diamond;⋄ &DifferentialD;ⅆ &Dopf;𝔻 &Dot;¨ \
    &DotDot;\u{20dc} &DotEqual;≐ &DoubleContourIntegral;∯ &DoubleDot;¨ &DoubleDownArrow;⇓ \
    &DoubleLeftArrow;⇐ &DoubleLeftRightArrow;⇔ &DoubleLeftTee;⫤ &DoubleLongLeftArrow;⟸ \
    &DoubleLongLeftRightArrow;⟺ &DoubleLongRightArrow;⟹ &DoubleRightArrow;⇒ &DoubleRightTee;⊨ \
    &DoubleUpArrow;⇑ &DoubleUpDownArrow;⇕ &DoubleVerticalBar;∥ &DownArrow;↓ &DownArrowBar;⤓ \
    &DownArrowUpArrow;⇵ &DownBreve;\u{311} &DownLeftRightVector;⥐ &DownLeftTeeVector;⥞ \
    &DownLeftVector;↽ &DownLeftVectorBar;⥖ &DownRightTeeVector;⥟ &DownRightVector;⇁ \
    &DownRightVectorBar;⥗ &DownTee;⊤ &DownTeeArrow;↧ &Downarrow;⇓ &Dscr;𝒟 &Dstrok;Đ ",
    "\
    &ETH;Ð &Eacute;É &Ecirc;Ê &Egrave;È &Epsilon;Ε &Eta;Η &Euml;Ë &ENG;Ŋ &Ecaron;Ě &Ecy;Э &Edot;Ė \
    &Efr;𝔈 &Element;∈ &Emacr;Ē &EmptySmallSquare;◻ &EmptyVerySmallSquare;▫ &Eogon;Ę &Eopf;𝔼 \
    &Equal;⩵ &EqualTilde;≂ &Equilibrium;⇌ &Escr;ℰ &Esim;⩳ &Exists;∃ &ExponentialE;ⅇ ",
    "\
    &Fcy;Ф &Ffr;𝔉 &FilledSmallSquare;◼ &FilledVerySmallSquare;▪ &Fopf;𝔽 &ForAll;∀ &Fouriertrf;ℱ \
    &Fscr;ℱ ",
    "\
    &Gamma;Γ &GJcy;Ѓ &GT;> &Gammad;Ϝ &Gbreve;Ğ &Gcedil;Ģ &Gcirc;Ĝ &Gcy;Г &Gdot;Ġ &Gfr;𝔊 &Gg;⋙ \
    &Gopf;𝔾 &GreaterEqual;≥ &GreaterEqualLess;⋛ &GreaterFullEqual;≧ &GreaterGreater;⪢ \
    &GreaterLess;≷ &GreaterSlantEqual;⩾ &GreaterTilde;≳ &Gscr;𝒢 &Gt;≫ ",
    "\
    &HARDcy;Ъ &Hacek;ˇ &Hat;^ &Hcirc;Ĥ &Hfr;ℌ &HilbertSpace;ℋ &Hopf;ℍ &HorizontalLine;─ &Hscr;ℋ \
    &Hstrok;Ħ &HumpDownHump;≎ &HumpEqual;≏ ",
    "\
    &Iacute;Í &Icirc;Î &Igrave;Ì &Iota;Ι &Iuml;Ï &IEcy;Е &IJlig;Ĳ &IOcy;Ё &Icy;И &Idot;İ &Ifr;ℑ \
    &Im;ℑ &Imacr;Ī &ImaginaryI;ⅈ &Implies;⇒ &Int;∬ &Integral;∫ &Intersection;⋂ \
    &InvisibleComma;\u{2063} &InvisibleTimes;\u{2062} &Iogon;Į &Iopf;𝕀 &Iscr;ℐ &Itilde;Ĩ &Iukcy;І ",
    "\
    &Jcirc;Ĵ &Jcy;Й &Jfr;𝔍 &Jopf;𝕁 &Jscr;𝒥 &Jsercy;Ј &Jukcy;Є ",
    "\
    &Kappa;Κ &KHcy;Х &KJcy;Ќ &Kcedil;Ķ &Kcy;К &Kfr;𝔎 &Kopf;𝕂 &Kscr;𝒦 ",
    "\
    &Lambda;Λ &LJcy;Љ &LT;< &Lacute;Ĺ &Lang;⟪ &Laplacetrf;ℒ &Larr;↞ &Lcaron;Ľ &Lcedil;Ļ &Lcy;Л \
    &LeftAngleBracket;⟨ &LeftArrow;← &LeftArrowBar;⇤ &LeftArrowRightArrow;⇆ &LeftCeiling;⌈ \
    &LeftDoubleBracket;⟦ &LeftDownTeeVector;⥡ &LeftDownVector;⇃ &LeftDownVectorBar;⥙ &LeftFloor;⌊ \
    &LeftRightArrow;↔ &LeftRightVector;⥎ &LeftTee;⊣ &LeftTeeArrow;↤ &LeftTeeVector;⥚ \
    &LeftTriangle;⊲ &LeftTriangleBar;⧏ &LeftTriangleEqual;⊴ &LeftUpDownVector;⥑ &LeftUpTeeVector;⥠ \
    &LeftUpVector;↿ &LeftUpVectorBar;⥘ &LeftVector;↼ &LeftVectorBar;⥒ &Leftarrow;⇐ \
    &Leftrightarrow;⇔ &LessEqualGreater;⋚ &LessFullEqual;≦ &LessGreater;≶ &LessLess;⪡ \
    &LessSlantEqual;⩽ &LessTilde;≲ &Lfr;𝔏 &Ll;⋘ &Lleftarrow;⇚ &Lmidot;Ŀ &LongLeftArrow;⟵ \
    &LongLeftRightArrow;⟷ &LongRightArrow;⟶ &Longleftarrow;⟸ &Longleftrightarrow;⟺ \
    &Longrightarrow;⟹ &Lopf;𝕃 &LowerLeftArrow;↙ &LowerRightArrow;↘ &Lscr;ℒ &Lsh;↰ &Lstrok;Ł &Lt;≪ ",
    "\
    &Mu;Μ &Map;⤅ &Mcy;М &MediumSpace;\u{205f} &Mellintrf;ℳ &Mfr;𝔐 &MinusPlus;∓ &Mopf;𝕄 &Mscr;ℳ ",
    "\
    &Ntilde;Ñ &Nu;Ν &NJcy;Њ &Nacute;Ń &Ncaron;Ň &Ncedil;Ņ &Ncy;Н &NegativeMediumSpace;\u{200b} \
    &NegativeThickSpace;\u{200b} &NegativeThinSpace;\u{200b} &NegativeVeryThinSpace;\u{200b} \
    &NestedGreaterGreater;≫ &NestedLessLess;≪ &NewLine;\u{a} &Nfr;𝔑 &NoBreak;\u{2060} \
    &NonBreakingSpace;\u{a0} &Nopf;ℕ &Not;⫬ &NotCongruent;≢ &NotCupCap;≭ &NotDoubleVerticalBar;∦ \
    &NotElement;∉ &NotEqual;≠ &NotEqualTilde;≂\u{338} &NotExists;∄ &NotGreater;≯ \
    &NotGreaterEqual;≱ &NotGreaterFullEqual;≧\u{338} &NotGreaterGreater;≫\u{338} &NotGreaterLess;≹ \
    &NotGreaterSlantEqual;⩾\u{338} &NotGreaterTilde;≵ &NotHumpDownHump;≎\u{338} \
    &NotHumpEqual;≏\u{338} &NotLeftTriangle;⋪ &NotLeftTriangleBar;⧏\u{338} &NotLeftTriangleEqual;⋬ \
    &NotLess;≮ &NotLessEqual;≰ &NotLessGreater;≸ &NotLessLess;≪\u{338} &NotLessSlantEqual;⩽\u{338} \
    &NotLessTilde;≴ &NotNestedGreaterGreater;⪢\u{338} &NotNestedLessLess;⪡\u{338} &NotPrecedes;⊀ \
    &NotPrecedesEqual;⪯\u{338} &NotPrecedesSlantEqual;⋠ &NotReverseElement;∌ &NotRightTriangle;⋫ \
    &NotRightTriangleBar;⧐\u{338} &NotRightTriangleEqual;⋭ &NotSquareSubset;⊏\u{338} \
    &NotSquareSubsetEqual;⋢ &NotSquareSuperset;⊐\u{338} &NotSquareSupersetEqual;⋣ \
    &NotSubset;⊂\u{20d2} &NotSubsetEqual;⊈ &NotSucceeds;⊁ &NotSucceedsEqual;⪰\u{338} \
    &NotSucceedsSlantEqual;⋡ &NotSucceedsTilde;≿\u{338} &NotSuperset;⊃\u{20d2} &NotSupersetEqual;⊉ \
    &NotTilde;≁ &NotTildeEqual;≄ &NotTildeFullEqual;≇ &NotTildeTilde;≉ &NotVerticalBar;∤ &Nscr;𝒩 ",
    "\
    &OElig;Œ &Oacute;Ó &Ocirc;Ô &Ograve;Ò &Omega;Ω &Omicron;Ο &Oslash;Ø &Otilde;Õ &Ouml;Ö &Ocy;О \
    &Odblac;Ő &Ofr;𝔒 &Omacr;Ō &Oopf;𝕆 &OpenCurlyDoubleQuote;“ &OpenCurlyQuote;‘ &Or;⩔ &Oscr;𝒪 \
    &Otimes;⨷ &OverBar;‾ &OverBrace;⏞ &OverBracket;⎴ &OverParenthesis;⏜ ",
    "\
    &Phi;Φ &Pi;Π &Prime;″ &Psi;Ψ &PartialD;∂ &Pcy;П &Pfr;𝔓 &PlusMinus;± &Poincareplane;ℌ &Popf;ℙ \
    &Pr;⪻ &Precedes;≺ &PrecedesEqual;⪯ &PrecedesSlantEqual;≼ &PrecedesTilde;≾ &Product;∏ \
    &Proportion;∷ &Proportional;∝ &Pscr;𝒫 ",
    "\
    &QUOT;\" &Qfr;𝔔 &Qopf;ℚ &Qscr;𝒬 ",
    "\
    &Rho;Ρ &RBarr;⤐ &REG;® &Racute;Ŕ &Rang;⟫ &Rarr;↠ &Rarrtl;⤖ &Rcaron;Ř &Rcedil;Ŗ &Rcy;Р &Re;ℜ \
    &ReverseElement;∋ &ReverseEquilibrium;⇋ &ReverseUpEquilibrium;⥯ &Rfr;ℜ &RightAngleBracket;⟩ \
    &RightArrow;→ &RightArrowBar;⇥ &RightArrowLeftArrow;⇄ &RightCeiling;⌉ &RightDoubleBracket;⟧ \
    &RightDownTeeVector;⥝ &RightDownVector;⇂ &RightDownVectorBar;⥕ &RightFloor;⌋ &RightTee;⊢ \
    &RightTeeArrow;↦ &RightTeeVector;⥛ &RightTriangle;⊳ &RightTriangleBar;⧐ &RightTriangleEqual;⊵ \
    &RightUpDownVector;⥏ &RightUpTeeVector;⥜ &RightUpVector;↾ &RightUpVectorBar;⥔ &RightVector;⇀ \
    &RightVectorBar;⥓ &Rightarrow;⇒ &Ropf;ℝ &RoundImplies;⥰ &Rrightarrow;⇛ &Rscr;ℛ &Rsh;↱ \
    &RuleDelayed;⧴ ",
    "\
    &Scaron;Š &Sigma;Σ &SHCHcy;Щ &SHcy;Ш &SOFTcy;Ь &Sacute;Ś &Sc;⪼ &Scedil;Ş &Scirc;Ŝ &Scy;С \
    &Sfr;𝔖 &ShortDownArrow;↓ &ShortLeftArrow;← &ShortRightArrow;→ &ShortUpArrow;↑ &SmallCircle;∘ \
    &Sopf;𝕊 &Sqrt;√ &Square;□ &SquareIntersection;⊓ &SquareSubset;⊏ &SquareSubsetEqual;⊑ \
    &SquareSuperset;⊐ &SquareSupersetEqual;⊒ &SquareUnion;⊔ &Sscr;𝒮 &Star;⋆ &Sub;⋐ &Subset;⋐ \
    &SubsetEqual;⊆ &Succeeds;≻ &SucceedsEqual;⪰ &SucceedsSlantEqual;≽ &SucceedsTilde;≿ &SuchThat;∋ \
    &Sum;∑ &Sup;⋑ &Superset;⊃ &SupersetEqual;⊇ &Supset;⋑ ",
    "\
    &THORN;Þ &Tau;Τ &Theta;Θ &TRADE;™ &TSHcy;Ћ &TScy;Ц &Tab;\u{9} &Tcaron;Ť &Tcedil;Ţ &Tcy;Т \
    &Tfr;𝔗 &Therefore;∴ &ThickSpace;\u{205f}\u{200a} &ThinSpace;\u{2009} &Tilde;∼ &TildeEqual;≃ \
    &TildeFullEqual;≅ &TildeTilde;≈ &Topf;𝕋 &TripleDot;\u{20db} &Tscr;𝒯 &Tstrok;Ŧ ",
    "\
    &Uacute;Ú &Ucirc;Û &Ugrave;Ù &Upsilon;Υ &Uuml;Ü &Uarr;↟ &Uarrocir;⥉ &Ubrcy;Ў &Ubreve;Ŭ &Ucy;У \
    &Udblac;Ű &Ufr;𝔘 &Umacr;Ū &UnderBar;_ &UnderBrace;⏟ &UnderBracket;⎵ &UnderParenthesis;⏝ \
    &Union;⋃ &UnionPlus;⊎ &Uogon;Ų &Uopf;𝕌 &UpArrow;↑ &UpArrowBar;⤒ &UpArrowDownArrow;⇅ \
    &UpDownArrow;↕ &UpEquilibrium;⥮ &UpTee;⊥ &UpTeeArrow;↥ &Uparrow;⇑ &Updownarrow;⇕ \
    &UpperLeftArrow;↖ &UpperRightArrow;↗ &Upsi;ϒ &Uring;Ů &Uscr;𝒰 &Utilde;Ũ ",
    "\
    &VDash;⊫ &Vbar;⫫ &Vcy;В &Vdash;⊩ &Vdashl;⫦ &Vee;⋁ &Verbar;‖ &Vert;‖ &VerticalBar;∣ \
    &VerticalLine;| &VerticalSeparator;❘ &VerticalTilde;≀ &VeryThinSpace;\u{200a} &Vfr;𝔙 &Vopf;𝕍 \
    &Vscr;𝒱 &Vvdash;⊪ ",
    "\
    &Wcirc;Ŵ &Wedge;⋀ &Wfr;𝔚 &Wopf;𝕎 &Wscr;𝒲 ",
    "\
    &Xi;Ξ &Xfr;𝔛 &Xopf;𝕏 &Xscr;𝒳 ",
    "\
    &Yacute;Ý &Yuml;Ÿ &YAcy;Я &YIcy;Ї &YUcy;Ю &Ycirc;Ŷ &Ycy;Ы &Yfr;𝔜 &Yopf;𝕐 &Yscr;𝒴 ",
    "\
    &Zeta;Ζ &ZHcy;Ж &Zacute;Ź &Zcaron;Ž &Zcy;З &Zdot;Ż &ZeroWidthSpace;\u{200b} &Zfr;ℨ &Zopf;ℤ \
    &Zscr;𝒵 ",
    "",
    "",
    "",
    "",
    "",
    "",
    "\
    &amp;& &apos;' &aacute;á &acirc;â &acute;´ &aelig;æ &agrave;à &alefsym;ℵ &alpha;α &and;∧ \
    &ang;∠ &aring;å &asymp;≈ &atilde;ã &auml;ä &abreve;ă &ac;∾ &acE;∾\u{333} &acd;∿ &acy;а \
    &af;\u{2061} &afr;𝔞 &aleph;ℵ &amacr;ā &amalg;⨿ &andand;⩕ &andd;⩜ &andslope;⩘ &andv;⩚ &ange;⦤ \
    &angle;∠ &angmsd;∡ &angmsdaa;⦨ &angmsdab;⦩ &angmsdac;⦪ &angmsdad;⦫ &angmsdae;⦬ &angmsdaf;⦭ \
    &angmsdag;⦮ &angmsdah;⦯ &angrt;∟ &angrtvb;⊾ &angrtvbd;⦝ &angsph;∢ &angst;Å &angzarr;⍼ &aogon;ą \
    &aopf;𝕒 &ap;≈ &apE;⩰ &apacir;⩯ &ape;≊ &apid;≋ &approx;≈ &approxeq;≊ &ascr;𝒶 &ast;* &asympeq;≍ \
    &awconint;∳ &awint;⨑ ",
    "\
    &bdquo;„ &beta;β &brvbar;¦ &bull;• &bNot;⫭ &backcong;≌ &backepsilon;϶ &backprime;‵ &backsim;∽ \
    &backsimeq;⋍ &barvee;⊽ &barwed;⌅ &barwedge;⌅ &bbrk;⎵ &bbrktbrk;⎶ &bcong;≌ &bcy;б &becaus;∵ \
    &because;∵ &bemptyv;⦰ &bepsi;϶ &bernou;ℬ &beth;ℶ &between;≬ &bfr;𝔟 &bigcap;⋂ &bigcirc;◯ \
    &bigcup;⋃ &bigodot;⨀ &bigoplus;⨁ &bigotimes;⨂ &bigsqcup;⨆ &bigstar;★ &bigtriangledown;▽ \
    &bigtriangleup;△ &biguplus;⨄ &bigvee;⋁ &bigwedge;⋀ &bkarow;⤍ &blacklozenge;⧫ &blacksquare;▪ \
    &blacktriangle;▴ &blacktriangledown;▾ &blacktriangleleft;◂ &blacktriangleright;▸ &blank;␣ \
    &blk12;▒ &blk14;░ &blk34;▓ &block;█ &bne;=\u{20e5} &bnequiv;≡\u{20e5} &bnot;⌐ &bopf;𝕓 &bot;⊥ \
    &bottom;⊥ &bowtie;⋈ &boxDL;╗ &boxDR;╔ &boxDl;╖ &boxDr;╓ &boxH;═ &boxHD;╦ &boxHU;╩ &boxHd;╤ \
    &boxHu;╧ &boxUL;╝ &boxUR;╚ &boxUl;╜ &boxUr;╙ &boxV;║ &boxVH;╬ &boxVL;╣ &boxVR;╠ &boxVh;╫ \
    &boxVl;╢ &boxVr;╟ &boxbox;⧉ &boxdL;╕ &boxdR;╒ &boxdl;┐ &boxdr;┌ &boxh;─ &boxhD;╥ &boxhU;╨ \
    &boxhd;┬ &boxhu;┴ &boxminus;⊟ &boxplus;⊞ &boxtimes;⊠ &boxuL;╛ &boxuR;╘ &boxul;┘ &boxur;└ \
    &boxv;│ &boxvH;╪ &boxvL;╡ &boxvR;╞ &boxvh;┼ &boxvl;┤ &boxvr;├ &bprime;‵ &breve;˘ &bscr;𝒷 \
    &bsemi;⁏ &bsim;∽ &bsime;⋍ &bsol;\\ &bsolb;⧅ &bsolhsub;⟈ &bullet;• &bump;≎ &bumpE;⪮ &bumpe;≏ \
    &bumpeq;≏ ",
    "\
    &cap;∩ &ccedil;ç &cedil;¸ &cent;¢ &chi;χ &circ;ˆ &clubs;♣ &cong;≅ &copy;© &crarr;↵ &cup;∪ \
    &curren;¤ &cacute;ć &capand;⩄ &capbrcup;⩉ &capcap;⩋ &capcup;⩇ &capdot;⩀ &caps;∩\u{fe00} \
    &caret;⁁ &caron;ˇ &ccaps;⩍ &ccaron;č &ccirc;ĉ &ccups;⩌ &ccupssm;⩐ &cdot;ċ &cemptyv;⦲ \
    &centerdot;· &cfr;𝔠 &chcy;ч &check;✓ &checkmark;✓ &cir;○ &cirE;⧃ &circeq;≗ &circlearrowleft;↺ \
    &circlearrowright;↻ &circledR;® &circledS;Ⓢ &circledast;⊛ &circledcirc;⊚ &circleddash;⊝ \
    &cire;≗ &cirfnint;⨐ &cirmid;⫯ &cirscir;⧂ &clubsuit;♣ &colon;: &colone;≔ &coloneq;≔ &comma;, \
    &commat;@ &comp;∁ &compfn;∘ &complement;∁ &complexes;ℂ &congdot;⩭ &conint;∮ &copf;𝕔 &coprod;∐ \
    &copysr;℗ &cross;✗ &cscr;𝒸 &csub;⫏ &csube;⫑ &csup;⫐ &csupe;⫒ &ctdot;⋯ &cudarrl;⤸ &cudarrr;⤵ \
    &cuepr;⋞ &cuesc;⋟ &cularr;↶ &cularrp;⤽ &cupbrcap;⩈ &cupcap;⩆ &cupcup;⩊ &cupdot;⊍ &cupor;⩅ \
    &cups;∪\u{fe00} &curarr;↷ &curarrm;⤼ &curlyeqprec;⋞ &curlyeqsucc;⋟ &curlyvee;⋎ &curlywedge;⋏ \
    &curvearrowleft;↶ &curvearrowright;↷ &cuvee;⋎ &cuwed;⋏ &cwconint;∲ &cwint;∱ &cylcty;⌭ ",
    "\
    &dArr;⇓ &dagger;† &darr;↓ &deg;° &delta;δ &diams;♦ &divide;÷ &dHar;⥥ &daleth;ℸ &dash;‐ \
    &dashv;⊣ &dbkarow;⤏ &dblac;˝ &dcaron;ď &dcy;д &dd;ⅆ &ddagger;‡ &ddarr;⇊ &ddotseq;⩷ &demptyv;⦱ \
    &dfisht;⥿ &dfr;𝔡 &dharl;⇃ &dharr;⇂ &diam;⋄ &diamond;⋄ &diamondsuit;♦ &die;¨ &digamma;ϝ \
    &disin;⋲ &div;÷ &divideontimes;⋇ &divonx;⋇ &djcy;ђ &dlcorn;⌞ &dlcrop;⌍ &dollar;$ &dopf;𝕕 \
    &dot;˙ &doteq;≐ &doteqdot;≑ &dotminus;∸ &dotplus;∔ &dotsquare;⊡ &doublebarwedge;⌆ &downarrow;↓ \
    &downdownarrows;⇊ &downharpoonleft;⇃ &downharpoonright;⇂ &drbkarow;⤐ &drcorn;⌟ &drcrop;⌌ \
    &dscr;𝒹 &dscy;ѕ &dsol;⧶ &dstrok;đ &dtdot;⋱ &dtri;▿ &dtrif;▾ &duarr;⇵ &duhar;⥯ &dwangle;⦦ \
    &dzcy;џ &dzigrarr;⟿ ",
    "\
    &eacute;é &ecirc;ê &egrave;è &empty;∅ &emsp;\u{2003} &ensp;\u{2002} &epsilon;ε &equiv;≡ &eta;η \
    &eth;ð &euml;ë &euro;€ &exist;∃ &eDDot;⩷ &eDot;≑ &easter;⩮ &ecaron;ě &ecir;≖ &ecolon;≕ &ecy;э \
    &edot;ė &ee;ⅇ &efDot;≒ &efr;𝔢 &eg;⪚ &egs;⪖ &egsdot;⪘ &el;⪙ &elinters;⏧ &ell;ℓ &els;⪕ &elsdot;⪗ \
    &emacr;ē &emptyset;∅ &emptyv;∅ &emsp13;\u{2004} &emsp14;\u{2005} &eng;ŋ &eogon;ę &eopf;𝕖 \
    &epar;⋕ &eparsl;⧣ &eplus;⩱ &epsi;ε &epsiv;ϵ &eqcirc;≖ &eqcolon;≕ &eqsim;≂ &eqslantgtr;⪖ \
    &eqslantless;⪕ &equals;= &equest;≟ &equivDD;⩸ &eqvparsl;⧥ &erDot;≓ &erarr;⥱ &escr;ℯ &esdot;≐ \
    &esim;≂ &excl;! &expectation;ℰ &exponentiale;ⅇ ",
    "\
    &fnof;ƒ &forall;∀ &frac12;½ &frac14;¼ &frac34;¾ &frasl;⁄ &fallingdotseq;≒ &fcy;ф &female;♀ \
    &ffilig;ﬃ &fflig;ﬀ &ffllig;ﬄ &ffr;𝔣 &filig;ﬁ &fjlig;fj &flat;♭ &fllig;ﬂ &fltns;▱ &fopf;𝕗 \
    &fork;⋔ &forkv;⫙ &fpartint;⨍ &frac13;⅓ &frac15;⅕ &frac16;⅙ &frac18;⅛ &frac23;⅔ &frac25;⅖ \
    &frac35;⅗ &frac38;⅜ &frac45;⅘ &frac56;⅚ &frac58;⅝ &frac78;⅞ &frown;⌢ &fscr;𝒻 ",
    "\
    &gt;> &gamma;γ &ge;≥ &gE;≧ &gEl;⪌ &gacute;ǵ &gammad;ϝ &gap;⪆ &gbreve;ğ &gcirc;ĝ &gcy;г &gdot;ġ \
    &gel;⋛ &geq;≥ &geqq;≧ &geqslant;⩾ &ges;⩾ &gescc;⪩ &gesdot;⪀ &gesdoto;⪂ &gesdotol;⪄ \
    &gesl;⋛\u{fe00} &gesles;⪔ &gfr;𝔤 &gg;≫ &ggg;⋙ &gimel;ℷ &gjcy;ѓ &gl;≷ &glE;⪒ &gla;⪥ &glj;⪤ \
    &gnE;≩ &gnap;⪊ &gnapprox;⪊ &gne;⪈ &gneq;⪈ &gneqq;≩ &gnsim;⋧ &gopf;𝕘 &grave;` &gscr;ℊ &gsim;≳ \
    &gsime;⪎ &gsiml;⪐ &gtcc;⪧ &gtcir;⩺ &gtdot;⋗ &gtlPar;⦕ &gtquest;⩼ &gtrapprox;⪆ &gtrarr;⥸ \
    &gtrdot;⋗ &gtreqless;⋛ &gtreqqless;⪌ &gtrless;≷ &gtrsim;≳ &gvertneqq;≩\u{fe00} &gvnE;≩\u{fe00} ",
    "\
    &hArr;⇔ &harr;↔ &hearts;♥ &hellip;… &hairsp;\u{200a} &half;½ &hamilt;ℋ &hardcy;ъ &harrcir;⥈ \
    &harrw;↭ &hbar;ℏ &hcirc;ĥ &heartsuit;♥ &hercon;⊹ &hfr;𝔥 &hksearow;⤥ &hkswarow;⤦ &hoarr;⇿ \
    &homtht;∻ &hookleftarrow;↩ &hookrightarrow;↪ &hopf;𝕙 &horbar;― &hscr;𝒽 &hslash;ℏ &hstrok;ħ \
    &hybull;⁃ &hyphen;‐ ",
    "\
    &iacute;í &icirc;î &iexcl;¡ &igrave;ì &image;ℑ &infin;∞ &int;∫ &iota;ι &iquest;¿ &isin;∈ \
    &iuml;ï &ic;\u{2063} &icy;и &iecy;е &iff;⇔ &ifr;𝔦 &ii;ⅈ &iiiint;⨌ &iiint;∭ &iinfin;⧜ &iiota;℩ \
    &ijlig;ĳ &imacr;ī &imagline;ℐ &imagpart;ℑ &imath;ı &imof;⊷ &imped;Ƶ &in;∈ &incare;℅ \
    &infintie;⧝ &inodot;ı &intcal;⊺ &integers;ℤ &intercal;⊺ &intlarhk;⨗ &intprod;⨼ &iocy;ё \
    &iogon;į &iopf;𝕚 &iprod;⨼ &iscr;𝒾 &isinE;⋹ &isindot;⋵ &isins;⋴ &isinsv;⋳ &isinv;∈ &it;\u{2062} \
    &itilde;ĩ &iukcy;і ",
    "\
    &jcirc;ĵ &jcy;й &jfr;𝔧 &jmath;ȷ &jopf;𝕛 &jscr;𝒿 &jsercy;ј &jukcy;є ",
    "\
    &kappa;κ &kappav;ϰ &kcedil;ķ &kcy;к &kfr;𝔨 &kgreen;ĸ &khcy;х &kjcy;ќ &kopf;𝕜 &kscr;𝓀 ",
    "\
    &lt;< &lArr;⇐ &lambda;λ &lang;⟨ &laquo;« &larr;← &lceil;⌈ &ldquo;“ &le;≤ &lfloor;⌊ &lowast;∗ \
    &loz;◊ &lrm;\u{200e} &lsaquo;‹ &lsquo;‘ &lAarr;⇚ &lAtail;⤛ &lBarr;⤎ &lE;≦ &lEg;⪋ &lHar;⥢ \
    &lacute;ĺ &laemptyv;⦴ &lagran;ℒ &langd;⦑ &langle;⟨ &lap;⪅ &larrb;⇤ &larrbfs;⤟ &larrfs;⤝ \
    &larrhk;↩ &larrlp;↫ &larrpl;⤹ &larrsim;⥳ &larrtl;↢ &lat;⪫ &latail;⤙ &late;⪭ &lates;⪭\u{fe00} \
    &lbarr;⤌ &lbbrk;❲ &lbrace;{ &lbrack;[ &lbrke;⦋ &lbrksld;⦏ &lbrkslu;⦍ &lcaron;ľ &lcedil;ļ \
    &lcub;{ &lcy;л &ldca;⤶ &ldquor;„ &ldrdhar;⥧ &ldrushar;⥋ &ldsh;↲ &leftarrow;← &leftarrowtail;↢ \
    &leftharpoondown;↽ &leftharpoonup;↼ &leftleftarrows;⇇ &leftrightarrow;↔ &leftrightarrows;⇆ \
    &leftrightharpoons;⇋ &leftrightsquigarrow;↭ &leftthreetimes;⋋ &leg;⋚ &leq;≤ &leqq;≦ \
    &leqslant;⩽ &les;⩽ &lescc;⪨ &lesdot;⩿ &lesdoto;⪁ &lesdotor;⪃ &lesg;⋚\u{fe00} &lesges;⪓ \
    &lessapprox;⪅ &lessdot;⋖ &lesseqgtr;⋚ &lesseqqgtr;⪋ &lessgtr;≶ &lesssim;≲ &lfisht;⥼ &lfr;𝔩 \
    &lg;≶ &lgE;⪑ &lhard;↽ &lharu;↼ &lharul;⥪ &lhblk;▄ &ljcy;љ &ll;≪ &llarr;⇇ &llcorner;⌞ &llhard;⥫ \
    &lltri;◺ &lmidot;ŀ &lmoust;⎰ &lmoustache;⎰ &lnE;≨ &lnap;⪉ &lnapprox;⪉ &lne;⪇ &lneq;⪇ &lneqq;≨ \
    &lnsim;⋦ &loang;⟬ &loarr;⇽ &lobrk;⟦ &longleftarrow;⟵ &longleftrightarrow;⟷ &longmapsto;⟼ \
    &longrightarrow;⟶ &looparrowleft;↫ &looparrowright;↬ &lopar;⦅ &lopf;𝕝 &loplus;⨭ &lotimes;⨴ \
    &lowbar;_ &lozenge;◊ &lozf;⧫ &lpar;( &lparlt;⦓ &lrarr;⇆ &lrcorner;⌟ &lrhar;⇋ &lrhard;⥭ \
    &lrtri;⊿ &lscr;𝓁 &lsh;↰ &lsim;≲ &lsime;⪍ &lsimg;⪏ &lsqb;[ &lsquor;‚ &lstrok;ł &ltcc;⪦ &ltcir;⩹ \
    &ltdot;⋖ &lthree;⋋ &ltimes;⋉ &ltlarr;⥶ &ltquest;⩻ &ltrPar;⦖ &ltri;◃ &ltrie;⊴ &ltrif;◂ \
    &lurdshar;⥊ &luruhar;⥦ &lvertneqq;≨\u{fe00} &lvnE;≨\u{fe00} ",
    "\
    &macr;¯ &mdash;— &micro;µ &middot;· &minus;− &mu;μ &mDDot;∺ &male;♂ &malt;✠ &maltese;✠ &map;↦ \
    &mapsto;↦ &mapstodown;↧ &mapstoleft;↤ &mapstoup;↥ &marker;▮ &mcomma;⨩ &mcy;м &measuredangle;∡ \
    &mfr;𝔪 &mho;℧ &mid;∣ &midast;* &midcir;⫰ &minusb;⊟ &minusd;∸ &minusdu;⨪ &mlcp;⫛ &mldr;… \
    &mnplus;∓ &models;⊧ &mopf;𝕞 &mp;∓ &mscr;𝓂 &mstpos;∾ &multimap;⊸ &mumap;⊸ ",
    "\
    &nabla;∇ &nbsp;\u{a0} &ndash;– &ne;≠ &ni;∋ &not;¬ &notin;∉ &nsub;⊄ &ntilde;ñ &nu;ν \
    &nGg;⋙\u{338} &nGt;≫\u{20d2} &nGtv;≫\u{338} &nLeftarrow;⇍ &nLeftrightarrow;⇎ &nLl;⋘\u{338} \
    &nLt;≪\u{20d2} &nLtv;≪\u{338} &nRightarrow;⇏ &nVDash;⊯ &nVdash;⊮ &nacute;ń &nang;∠\u{20d2} \
    &nap;≉ &napE;⩰\u{338} &napid;≋\u{338} &napos;ŉ &napprox;≉ &natur;♮ &natural;♮ &naturals;ℕ \
    &nbump;≎\u{338} &nbumpe;≏\u{338} &ncap;⩃ &ncaron;ň &ncedil;ņ &ncong;≇ &ncongdot;⩭\u{338} \
    &ncup;⩂ &ncy;н &neArr;⇗ &nearhk;⤤ &nearr;↗ &nearrow;↗ &nedot;≐\u{338} &nequiv;≢ &nesear;⤨ \
    &nesim;≂\u{338} &nexist;∄ &nexists;∄ &nfr;𝔫 &ngE;≧\u{338} &nge;≱ &ngeq;≱ &ngeqq;≧\u{338} \
    &ngeqslant;⩾\u{338} &nges;⩾\u{338} &ngsim;≵ &ngt;≯ &ngtr;≯ &nhArr;⇎ &nharr;↮ &nhpar;⫲ &nis;⋼ \
    &nisd;⋺ &niv;∋ &njcy;њ &nlArr;⇍ &nlE;≦\u{338} &nlarr;↚ &nldr;‥ &nle;≰ &nleftarrow;↚ \
    &nleftrightarrow;↮ &nleq;≰ &nleqq;≦\u{338} &nleqslant;⩽\u{338} &nles;⩽\u{338} &nless;≮ \
    &nlsim;≴ &nlt;≮ &nltri;⋪ &nltrie;⋬ &nmid;∤ &nopf;𝕟 &notinE;⋹\u{338} &notindot;⋵\u{338} \
    &notinva;∉ &notinvb;⋷ &notinvc;⋶ &notni;∌ &notniva;∌ &notnivb;⋾ &notnivc;⋽ &npar;∦ \
    &nparallel;∦ &nparsl;⫽\u{20e5} &npart;∂\u{338} &npolint;⨔ &npr;⊀ &nprcue;⋠ &npre;⪯\u{338} \
    &nprec;⊀ &npreceq;⪯\u{338} &nrArr;⇏ &nrarr;↛ &nrarrc;⤳\u{338} &nrarrw;↝\u{338} &nrightarrow;↛ \
    &nrtri;⋫ &nrtrie;⋭ &nsc;⊁ &nsccue;⋡ &nsce;⪰\u{338} &nscr;𝓃 &nshortmid;∤ &nshortparallel;∦ \
    &nsim;≁ &nsime;≄ &nsimeq;≄ &nsmid;∤ &nspar;∦ &nsqsube;⋢ &nsqsupe;⋣ &nsubE;⫅\u{338} &nsube;⊈ \
    &nsubset;⊂\u{20d2} &nsubseteq;⊈ &nsubseteqq;⫅\u{338} &nsucc;⊁ &nsucceq;⪰\u{338} &nsup;⊅ \
    &nsupE;⫆\u{338} &nsupe;⊉ &nsupset;⊃\u{20d2} &nsupseteq;⊉ &nsupseteqq;⫆\u{338} &ntgl;≹ &ntlg;≸ \
    &ntriangleleft;⋪ &ntrianglelefteq;⋬ &ntriangleright;⋫ &ntrianglerighteq;⋭ &num;# &numero;№ \
    &numsp;\u{2007} &nvDash;⊭ &nvHarr;⤄ &nvap;≍\u{20d2} &nvdash;⊬ &nvge;≥\u{20d2} &nvgt;>\u{20d2} \
    &nvinfin;⧞ &nvlArr;⤂ &nvle;≤\u{20d2} &nvlt;<\u{20d2} &nvltrie;⊴\u{20d2} &nvrArr;⤃ \
    &nvrtrie;⊵\u{20d2} &nvsim;∼\u{20d2} &nwArr;⇖ &nwarhk;⤣ &nwarr;↖ &nwarrow;↖ &nwnear;⤧ ",
    "\
    &oacute;ó &ocirc;ô &oelig;œ &ograve;ò &oline;‾ &omega;ω &omicron;ο &oplus;⊕ &or;∨ &ordf;ª \
    &ordm;º &oslash;ø &otilde;õ &otimes;⊗ &ouml;ö &oS;Ⓢ &oast;⊛ &ocir;⊚ &ocy;о &odash;⊝ &odblac;ő \
    &odiv;⨸ &odot;⊙ &odsold;⦼ &ofcir;⦿ &ofr;𝔬 &ogon;˛ &ogt;⧁ &ohbar;⦵ &ohm;Ω &oint;∮ &olarr;↺ \
    &olcir;⦾ &olcross;⦻ &olt;⧀ &omacr;ō &omid;⦶ &ominus;⊖ &oopf;𝕠 &opar;⦷ &operp;⦹ &orarr;↻ &ord;⩝ \
    &order;ℴ &orderof;ℴ &origof;⊶ &oror;⩖ &orslope;⩗ &orv;⩛ &oscr;ℴ &osol;⊘ &otimesas;⨶ &ovbar;⌽ ",
    "\
    &para;¶ &part;∂ &permil;‰ &perp;⊥ &phi;φ &pi;π &piv;ϖ &plusmn;± &pound;£ &prime;′ &prod;∏ \
    &prop;∝ &psi;ψ &par;∥ &parallel;∥ &parsim;⫳ &parsl;⫽ &pcy;п &percnt;% &period;. &pertenk;‱ \
    &pfr;𝔭 &phiv;ϕ &phmmat;ℳ &phone;☎ &pitchfork;⋔ &planck;ℏ &planckh;ℎ &plankv;ℏ &plus;+ \
    &plusacir;⨣ &plusb;⊞ &pluscir;⨢ &plusdo;∔ &plusdu;⨥ &pluse;⩲ &plussim;⨦ &plustwo;⨧ &pm;± \
    &pointint;⨕ &popf;𝕡 &pr;≺ &prE;⪳ &prap;⪷ &prcue;≼ &pre;⪯ &prec;≺ &precapprox;⪷ &preccurlyeq;≼ \
    &preceq;⪯ &precnapprox;⪹ &precneqq;⪵ &precnsim;⋨ &precsim;≾ &primes;ℙ &prnE;⪵ &prnap;⪹ \
    &prnsim;⋨ &profalar;⌮ &profline;⌒ &profsurf;⌓ &propto;∝ &prsim;≾ &prurel;⊰ &pscr;𝓅 \
    &puncsp;\u{2008} ",
    "\
    &quot;\" &qfr;𝔮 &qint;⨌ &qopf;𝕢 &qprime;⁗ &qscr;𝓆 &quaternions;ℍ &quatint;⨖ &quest;? \
    &questeq;≟ ",
    "\
    &rArr;⇒ &radic;√ &rang;⟩ &raquo;» &rarr;→ &rceil;⌉ &rdquo;” &real;ℜ &reg;® &rfloor;⌋ &rho;ρ \
    &rlm;\u{200f} &rsaquo;› &rsquo;’ &rAarr;⇛ &rAtail;⤜ &rBarr;⤏ &rHar;⥤ &race;∽\u{331} &racute;ŕ \
    &raemptyv;⦳ &rangd;⦒ &range;⦥ &rangle;⟩ &rarrap;⥵ &rarrb;⇥ &rarrbfs;⤠ &rarrc;⤳ &rarrfs;⤞ \
    &rarrhk;↪ &rarrlp;↬ &rarrpl;⥅ &rarrsim;⥴ &rarrtl;↣ &rarrw;↝ &ratail;⤚ &ratio;∶ &rationals;ℚ \
    &rbarr;⤍ &rbbrk;❳ &rbrace;} &rbrack;] &rbrke;⦌ &rbrksld;⦎ &rbrkslu;⦐ &rcaron;ř &rcedil;ŗ \
    &rcub;} &rcy;р &rdca;⤷ &rdldhar;⥩ &rdquor;” &rdsh;↳ &realine;ℛ &realpart;ℜ &reals;ℝ &rect;▭ \
    &rfisht;⥽ &rfr;𝔯 &rhard;⇁ &rharu;⇀ &rharul;⥬ &rhov;ϱ &rightarrow;→ &rightarrowtail;↣ \
    &rightharpoondown;⇁ &rightharpoonup;⇀ &rightleftarrows;⇄ &rightleftharpoons;⇌ \
    &rightrightarrows;⇉ &rightsquigarrow;↝ &rightthreetimes;⋌ &ring;˚ &risingdotseq;≓ &rlarr;⇄ \
    &rlhar;⇌ &rmoust;⎱ &rmoustache;⎱ &rnmid;⫮ &roang;⟭ &roarr;⇾ &robrk;⟧ &ropar;⦆ &ropf;𝕣 \
    &roplus;⨮ &rotimes;⨵ &rpar;) &rpargt;⦔ &rppolint;⨒ &rrarr;⇉ &rscr;𝓇 &rsh;↱ &rsqb;] &rsquor;’ \
    &rthree;⋌ &rtimes;⋊ &rtri;▹ &rtrie;⊵ &rtrif;▸ &rtriltri;⧎ &ruluhar;⥨ &rx;℞ ",
    "\
    &sbquo;‚ &scaron;š &sdot;⋅ &sect;§ &shy;\u{ad} &sigma;σ &sigmaf;ς &sim;∼ &spades;♠ &sub;⊂ \
    &sube;⊆ &sum;∑ &sup;⊃ &sup1;¹ &sup2;² &sup3;³ &supe;⊇ &szlig;ß &sacute;ś &sc;≻ &scE;⪴ &scap;⪸ \
    &sccue;≽ &sce;⪰ &scedil;ş &scirc;ŝ &scnE;⪶ &scnap;⪺ &scnsim;⋩ &scpolint;⨓ &scsim;≿ &scy;с \
    &sdotb;⊡ &sdote;⩦ &seArr;⇘ &searhk;⤥ &searr;↘ &searrow;↘ &semi;; &seswar;⤩ &setminus;∖ \
    &setmn;∖ &sext;✶ &sfr;𝔰 &sfrown;⌢ &sharp;♯ &shchcy;щ &shcy;ш &shortmid;∣ &shortparallel;∥ \
    &sigmav;ς &simdot;⩪ &sime;≃ &simeq;≃ &simg;⪞ &simgE;⪠ &siml;⪝ &simlE;⪟ &simne;≆ &simplus;⨤ \
    &simrarr;⥲ &slarr;← &smallsetminus;∖ &smashp;⨳ &smeparsl;⧤ &smid;∣ &smile;⌣ &smt;⪪ &smte;⪬ \
    &smtes;⪬\u{fe00} &softcy;ь &sol;/ &solb;⧄ &solbar;⌿ &sopf;𝕤 &spadesuit;♠ &spar;∥ &sqcap;⊓ \
    &sqcaps;⊓\u{fe00} &sqcup;⊔ &sqcups;⊔\u{fe00} &sqsub;⊏ &sqsube;⊑ &sqsubset;⊏ &sqsubseteq;⊑ \
    &sqsup;⊐ &sqsupe;⊒ &sqsupset;⊐ &sqsupseteq;⊒ &squ;□ &square;□ &squarf;▪ &squf;▪ &srarr;→ \
    &sscr;𝓈 &ssetmn;∖ &ssmile;⌣ &sstarf;⋆ &star;☆ &starf;★ &straightepsilon;ϵ &straightphi;ϕ \
    &strns;¯ &subE;⫅ &subdot;⪽ &subedot;⫃ &submult;⫁ &subnE;⫋ &subne;⊊ &subplus;⪿ &subrarr;⥹ \
    &subset;⊂ &subseteq;⊆ &subseteqq;⫅ &subsetneq;⊊ &subsetneqq;⫋ &subsim;⫇ &subsub;⫕ &subsup;⫓ \
    &succ;≻ &succapprox;⪸ &succcurlyeq;≽ &succeq;⪰ &succnapprox;⪺ &succneqq;⪶ &succnsim;⋩ \
    &succsim;≿ &sung;♪ &supE;⫆ &supdot;⪾ &supdsub;⫘ &supedot;⫄ &suphsol;⟉ &suphsub;⫗ &suplarr;⥻ \
    &supmult;⫂ &supnE;⫌ &supne;⊋ &supplus;⫀ &supset;⊃ &supseteq;⊇ &supseteqq;⫆ &supsetneq;⊋ \
    &supsetneqq;⫌ &supsim;⫈ &supsub;⫔ &supsup;⫖ &swArr;⇙ &swarhk;⤦ &swarr;↙ &swarrow;↙ &swnwar;⤪ ",
    "\
    &tau;τ &there4;∴ &theta;θ &thetasym;ϑ &thinsp;\u{2009} &thorn;þ &tilde;˜ &times;× &trade;™ \
    &target;⌖ &tbrk;⎴ &tcaron;ť &tcedil;ţ &tcy;т &tdot;\u{20db} &telrec;⌕ &tfr;𝔱 &therefore;∴ \
    &thetav;ϑ &thickapprox;≈ &thicksim;∼ &thkap;≈ &thksim;∼ &timesb;⊠ &timesbar;⨱ &timesd;⨰ \
    &tint;∭ &toea;⤨ &top;⊤ &topbot;⌶ &topcir;⫱ &topf;𝕥 &topfork;⫚ &tosa;⤩ &tprime;‴ &triangle;▵ \
    &triangledown;▿ &triangleleft;◃ &trianglelefteq;⊴ &triangleq;≜ &triangleright;▹ \
    &trianglerighteq;⊵ &tridot;◬ &trie;≜ &triminus;⨺ &triplus;⨹ &trisb;⧍ &tritime;⨻ &trpezium;⏢ \
    &tscr;𝓉 &tscy;ц &tshcy;ћ &tstrok;ŧ &twixt;≬ &twoheadleftarrow;↞ &twoheadrightarrow;↠ ",
    "\
    &uArr;⇑ &uacute;ú &uarr;↑ &ucirc;û &ugrave;ù &uml;¨ &upsih;ϒ &upsilon;υ &uuml;ü &uHar;⥣ \
    &ubrcy;ў &ubreve;ŭ &ucy;у &udarr;⇅ &udblac;ű &udhar;⥮ &ufisht;⥾ &ufr;𝔲 &uharl;↿ &uharr;↾ \
    &uhblk;▀ &ulcorn;⌜ &ulcorner;⌜ &ulcrop;⌏ &ultri;◸ &umacr;ū &uogon;ų &uopf;𝕦 &uparrow;↑ \
    &updownarrow;↕ &upharpoonleft;↿ &upharpoonright;↾ &uplus;⊎ &upsi;υ &upuparrows;⇈ &urcorn;⌝ \
    &urcorner;⌝ &urcrop;⌎ &uring;ů &urtri;◹ &uscr;𝓊 &utdot;⋰ &utilde;ũ &utri;▵ &utrif;▴ &uuarr;⇈ \
    &uwangle;⦧ ",
    "\
    &vArr;⇕ &vBar;⫨ &vBarv;⫩ &vDash;⊨ &vangrt;⦜ &varepsilon;ϵ &varkappa;ϰ &varnothing;∅ &varphi;ϕ \
    &varpi;ϖ &varpropto;∝ &varr;↕ &varrho;ϱ &varsigma;ς &varsubsetneq;⊊\u{fe00} \
    &varsubsetneqq;⫋\u{fe00} &varsupsetneq;⊋\u{fe00} &varsupsetneqq;⫌\u{fe00} &vartheta;ϑ \
    &vartriangleleft;⊲ &vartriangleright;⊳ &vcy;в &vdash;⊢ &vee;∨ &veebar;⊻ &veeeq;≚ &vellip;⋮ \
    &verbar;| &vert;| &vfr;𝔳 &vltri;⊲ &vnsub;⊂\u{20d2} &vnsup;⊃\u{20d2} &vopf;𝕧 &vprop;∝ &vrtri;⊳ \
    &vscr;𝓋 &vsubnE;⫋\u{fe00} &vsubne;⊊\u{fe00} &vsupnE;⫌\u{fe00} &vsupne;⊋\u{fe00} &vzigzag;⦚ ",
    "\
    &weierp;℘ &wcirc;ŵ &wedbar;⩟ &wedge;∧ &wedgeq;≙ &wfr;𝔴 &wopf;𝕨 &wp;℘ &wr;≀ &wreath;≀ &wscr;𝓌 ",
    "\
    &xi;ξ &xcap;⋂ &xcirc;◯ &xcup;⋃ &xdtri;▽ &xfr;𝔵 &xhArr;⟺ &xharr;⟷ &xlArr;⟸ &xlarr;⟵ &xmap;⟼ \
    &xnis;⋻ &xodot;⨀ &xopf;𝕩 &xoplus;⨁ &xotime;⨂ &xrArr;⟹ &xrarr;⟶ &xscr;𝓍 &xsqcup;⨆ &xuplus;⨄ \
    &xutri;△ &xvee;⋁ &xwedge;⋀ ",
    "\
    &yacute;ý &yen;¥ &yuml;ÿ &yacy;я &ycirc;ŷ &ycy;ы &yfr;𝔶 &yicy;ї &yopf;𝕪 &yscr;𝓎 &yucy;ю ",
    "\
    &zeta;ζ &zwj;\u{200d} &zwnj;\u{200c} &zacute;ź &zcaron;ž &zcy;з &zdot;ż &zeetrf;ℨ &zfr;𝔷 \
    &zhcy;ж &zigrarr;⇝ &zopf;𝕫 &zscr;𝓏 ",
];
